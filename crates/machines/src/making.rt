ghost use Rattle.std.specs.Prelude.{◌≡◌, ℕ};
ghost use Rattle.machines.specs.Refusals.{numbered};

use guard::refusal::Refusal;

// Why a machine is not made.
#[derive(Clone, Copy, Debug, PartialEq, Eq)]
pub enum MakingRefusal {
    // a rail's length is not from 1 to 100,000
    RailLength = 3,
    // a hall's size is not from 1 to 63 on each axis
    HallSize = 4,
}

impl Refusal for MakingRefusal {
    ghost meant = { numbered };

    fn number(&self) -> u8 {
        // a cast has no generic form
        *self as u8
    }
}
