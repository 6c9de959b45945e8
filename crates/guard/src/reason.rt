ghost use Rattle.std.specs.Prelude.{◌≡◌};
ghost use Rattle.guard.specs.Reasons.{number_of, Decodes};

// Why control stays or changes hands when an action is granted.
#[derive(Clone, Copy, Debug, PartialEq, Eq)]
pub enum Reason {
    // control stays
    Stays = 0,
    // the planner proposed no action, so the keeper takes control
    NoAction = 1,
    // the planner's proposal is not admissible, so the keeper takes control
    NotAdmissible = 2,
    // the reading is calm, so the planner takes control
    Calm = 3,
}

impl From<Reason> for u8 {
    // The number by which grants and records name the reason.
    ghost from_gives = { λ reason n. n ≡ number_of reason };

    fn from(reason: Reason) -> u8 {
        reason as u8
    }
}

// A number that is no reason's.
#[derive(Clone, Copy, Debug, PartialEq, Eq)]
pub struct UnknownReason(pub u8);

impl TryFrom<u8> for Reason {
    type Error = UnknownReason;

    ghost try_from_gives = { Decodes };

    fn try_from(n: u8) -> Result<Self, UnknownReason> {
        match n {
            0 => Ok(Reason::Stays),
            1 => Ok(Reason::NoAction),
            2 => Ok(Reason::NotAdmissible),
            3 => Ok(Reason::Calm),
            _ => Err(UnknownReason(n)),
        }
    }
}
