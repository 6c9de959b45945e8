ghost use Rattle.std.specs.Prelude.{ℕ};
ghost use Rattle.layers.specs.Refusals.{numbered};

use guard::refusal::Refusal;

// Why a region is not added to a draft.
#[derive(Clone, Copy, Debug, PartialEq, Eq)]
pub enum DraftRefusal {
    // an upper coordinate is below its lower one
    Inverted = 1,
    // the draft holds 16 regions already
    Full = 2,
}

impl Refusal for DraftRefusal {
    ghost meant = { numbered };

    fn number(&self) -> u8 {
        // a cast has no generic form
        *self as u8
    }
}
