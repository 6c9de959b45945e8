ghost use Rattle.std.specs.Prelude.{◌≡◌, ℕ};
ghost use Rattle.guard.specs.Refusals.{numbered};

// A refusal has a number in the table of refusals.
pub trait Refusal {
    ghost meant: { Self → ℕ };

    fn number(&self) -> u8
        ensures { result ≡ meant self.now };
}

// Why no state is made from three numbers.
#[derive(Clone, Copy, Debug, PartialEq, Eq)]
pub enum StateRefusal {
    NoSuchState = 5,
}

impl Refusal for StateRefusal {
    ghost meant = { numbered };

    fn number(&self) -> u8 {
        // a cast has no generic form
        *self as u8
    }
}
