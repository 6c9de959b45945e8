ghost use Rattle.std.specs.Prelude.{◌≡◌};
ghost use Rattle.keeping.specs.declared.planned.LogFault.TheVariants.{Memory};

use crate::ticks::Ticks;
use records::refusal::ReadRefusal;
use std::alloc::AllocFailed;

// The ranges of ticks in which the planner had control, and since when it has it where the log does not say how far that goes.
#[derive(Debug, PartialEq, Eq, Drop)]
pub struct Planned {
    pub ranges: Vec<Ticks>,
    pub open: Option<u32>,
}

// Why bytes are no log.
#[derive(Clone, Copy, Debug, PartialEq, Eq)]
pub enum LogFault {
    // at this offset no record can be read
    Unread(usize, ReadRefusal),
    // the record at this offset is one of a tape
    OfTape(usize),
    // no memory is left for the ranges
    Memory,
}

impl<T: Drop> From<AllocFailed<T>> for LogFault {
    ghost from_gives = { λ _ fault. fault ≡ Memory };

    fn from(_e: AllocFailed<T>) -> LogFault {
        LogFault::Memory
    }
}
