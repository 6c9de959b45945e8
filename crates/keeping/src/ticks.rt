ghost use Rattle.std.specs.Prelude.{◌≡◌, ◌-◌};

// The ticks from the first to before the end.
#[derive(Clone, Copy, Debug, PartialEq, Eq)]
pub struct Ticks {
    pub first: u32,
    pub end: u32,
}

impl Ticks {
    // How many ticks there are.
    pub fn len(self) -> u32
        ensures { result ≡ self.end - self.first }
    {
        self.end.saturating_sub(self.first)
    }
}
