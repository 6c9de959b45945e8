ghost use Rattle.std.specs.Prelude.{◌≡◌, ℕ};
ghost use Rattle.runs.specs.Refusals.{numbered, numbered_record, numbered_run, ending_of};
ghost use Rattle.runs.specs.declared.refusal.RecordRefusal.TheVariants.{State as OfState, Call as OfCall};

use guard::refusal::{Refusal, StateRefusal};
use history::calls::CallRefusal;
use records::refusal::{ReadRefusal, WriteRefusal};

// Why a record that was read is not carried out.
#[derive(Clone, Copy, Debug, PartialEq, Eq)]
pub enum TapeRefusal {
    // the record is one of a log
    LogRecord = 15,
}

impl Refusal for TapeRefusal {
    ghost meant = { numbered };

    fn number(&self) -> u8 {
        // a cast has no generic form
        *self as u8
    }
}

// Why a run ended before its tape did.
#[derive(Clone, Copy, Debug, PartialEq, Eq)]
pub enum RunRefusal {
    // the tape has no record there
    Read(ReadRefusal),
    // the record has no place on a tape
    Tape(TapeRefusal),
    // the log has no room for what is due
    Write(WriteRefusal),
}

impl Refusal for RunRefusal {
    ghost meant = { numbered_run };

    fn number(&self) -> u8 {
        match self {
            RunRefusal::Read(x) => x.number(),
            RunRefusal::Tape(x) => x.number(),
            RunRefusal::Write(x) => x.number(),
        }
    }
}

// Why a record of a tape comes to nothing but a refusal in the log.
#[derive(Clone, Copy, Debug, PartialEq, Eq)]
pub(crate) enum RecordRefusal {
    State(StateRefusal),
    Call(CallRefusal),
    // the run ends with it
    Ends(RunRefusal),
}

impl RecordRefusal {
    // The refusal that ends the run with this record, if one does.
    pub(crate) fn ending(self) -> Option<RunRefusal>
        ensures { result ≡ ending_of self }
    {
        match self {
            RecordRefusal::State(_) | RecordRefusal::Call(_) => None,
            RecordRefusal::Ends(x) => Some(x),
        }
    }
}

impl Refusal for RecordRefusal {
    ghost meant = { numbered_record };

    fn number(&self) -> u8 {
        match self {
            RecordRefusal::State(x) => x.number(),
            RecordRefusal::Call(x) => x.number(),
            RecordRefusal::Ends(x) => x.number(),
        }
    }
}

impl From<StateRefusal> for RecordRefusal {
    ghost from_gives = { λ x e. e ≡ OfState x };

    fn from(x: StateRefusal) -> RecordRefusal {
        RecordRefusal::State(x)
    }
}

impl From<CallRefusal> for RecordRefusal {
    ghost from_gives = { λ x e. e ≡ OfCall x };

    fn from(x: CallRefusal) -> RecordRefusal {
        RecordRefusal::Call(x)
    }
}
