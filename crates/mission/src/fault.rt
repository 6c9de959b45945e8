ghost use Rattle.std.specs.Prelude.{◌≡◌};
ghost use Rattle.mission.specs.declared.fault.Why.TheVariants.{NotMade, NoState, NotAdded};
ghost use Rattle.mission.specs.declared.fault.Fault.TheVariants.{Call};

use guard::refusal::{Refusal, StateRefusal};
use history::calls::CallRefusal;
use layers::draft::refusal::DraftRefusal;
use machines::making::MakingRefusal;
use records::refusal::ReadRefusal;
use std::alloc::{AllocError, AllocFailed};
use std::{fmt, io};
use text::words;

const USAGE: &str =
    "usage: mission brake|judge MACHINE LAYER.. STATE [--charge N] [--gusts W,W,..], mission calls MACHINE LAYER.. [--mission N] FILE, mission run MACHINE LAYER.. [--mission N] [--log-size BYTES] [--log FILE] [--quiet] [--hex] TAPE, mission demo MACHINE, mission show [--hex] FILE, or mission keep [--hex] LOG, with cart:LENGTH or drone:X,Y,Z and fence:REGION+.. or battery:RESERVE";

// What is wrong with a word.
#[derive(Clone, Copy, Debug, PartialEq, Eq)]
pub enum Why {
    NoCommand,
    NoMachine,
    NotMade(MakingRefusal),
    NoState(StateRefusal),
    CartForm,
    DroneForm,
    HallForm,
    NoLayer,
    ManyLayers,
    RegionForm,
    NotAdded(DraftRefusal),
    NotReserve,
    NotNumbers,
    NotCharge,
    NotMission,
    NotSize,
    NotWritten,
    NoFile,
    NoBytes,
    OddDigits,
    NoGust,
    NoOption,
    NoValue,
}

impl Why {
    // The number under which the library refuses the word, where it does.
    fn refusal(self) -> Option<u8> {
        match self {
            Why::NotMade(x) => Some(x.number()),
            Why::NoState(x) => Some(x.number()),
            Why::NotAdded(x) => Some(x.number()),
            _ => None,
        }
    }
}

impl fmt::Display for Why {
    fn fmt<W: fmt::Write>(&self, f: &mut fmt::Formatter<W>) -> fmt::Result {
        f.write_str(match self {
            Why::NoCommand => "no such command",
            Why::NoMachine => "no such machine",
            Why::NotMade(MakingRefusal::RailLength) => "no such rail",
            Why::NotMade(MakingRefusal::HallSize) => "no such hall",
            Why::NoState(_) => "no such state",
            Why::CartForm => "a cart's state is written PLACE,SPEED",
            Why::DroneForm => "a drone's state is written X,Y,Z",
            Why::HallForm => "a drone is written drone:X,Y,Z",
            Why::NoLayer => "no such layer",
            Why::ManyLayers => "more than three layers",
            Why::RegionForm => "a fence is written fence:X,Y,Z,X,Y,Z+..",
            Why::NotAdded(_) => "not a region that can be added",
            Why::NotReserve => "not a reserve from 0 to 65535",
            Why::NotNumbers => "not whole numbers",
            Why::NotCharge => "not a charge from 0 to 65535",
            Why::NotMission => "not a mission number from 0 to 4294967295",
            Why::NotSize => "not a number of bytes",
            Why::NotWritten => "no log can be written to",
            Why::NoFile => "no text can be read from",
            Why::NoBytes => "no bytes can be read from",
            Why::OddDigits => "an odd number of hexadecimal digits in",
            Why::NoGust => "the machine has no such gust",
            Why::NoOption => "no such option",
            Why::NoValue => "no value follows the option",
        })
    }
}

impl From<MakingRefusal> for Why {
    ghost from_gives = { λ x e. e ≡ NotMade x };

    fn from(x: MakingRefusal) -> Why {
        Why::NotMade(x)
    }
}

impl From<StateRefusal> for Why {
    ghost from_gives = { λ x e. e ≡ NoState x };

    fn from(x: StateRefusal) -> Why {
        Why::NoState(x)
    }
}

impl From<DraftRefusal> for Why {
    ghost from_gives = { λ x e. e ≡ NotAdded x };

    fn from(x: DraftRefusal) -> Why {
        Why::NotAdded(x)
    }
}

// Why a command is not carried out. It shows as one line that names the word at fault.
#[derive(Drop)]
pub enum Fault<'a> {
    Usage,
    Word(Why, &'a str),
    // a line of a script, counted from 0, is no call
    Line(usize),
    // the byte at this offset of a text is no hexadecimal digit
    Digit(usize, &'a str),
    // at this offset of a log no record can be read
    Unread(usize, ReadRefusal, &'a str),
    // at this offset a record of a tape stands in a log
    OfTape(usize, &'a str),
    // the executive refuses a call
    Call(CallRefusal),
    Output,
    Memory,
}

impl fmt::Display for Fault<'_> {
    fn fmt<W: fmt::Write>(&self, f: &mut fmt::Formatter<W>) -> fmt::Result {
        match self {
            Fault::Usage => f.write_str(USAGE),
            Fault::Word(why, word) => {
                write!(f, "{why}: '{word}'")?;
                match why.refusal() {
                    Some(number) => write!(f, ": refused {number}"),
                    None => Ok(()),
                }
            }
            Fault::Line(i) => write!(f, "line {} is no call", i.saturating_add(1)),
            Fault::Unread(at, refusal, word) => {
                let number = refusal.number();
                let why = words::refusal(number);
                write!(f, "{why}: byte {at} of '{word}': refused {number}")
            }
            Fault::OfTape(at, word) => {
                write!(
                    f,
                    "a record of a tape stands in the log: byte {at} of '{word}'"
                )
            }
            Fault::Digit(at, word) => write!(f, "byte {at} is no hexadecimal digit: '{word}'"),
            Fault::Call(refusal) => {
                let number = refusal.number();
                write!(f, "the executive refuses a call: refused {number}")
            }
            Fault::Output => f.write_str("standard output cannot be written"),
            Fault::Memory => f.write_str("no memory is left"),
        }
    }
}

impl From<CallRefusal> for Fault<'_> {
    ghost from_gives = { λ x e. e ≡ Call x };

    fn from(x: CallRefusal) -> Self {
        Fault::Call(x)
    }
}

impl From<io::Error> for Fault<'_> {
    fn from(e: io::Error) -> Self {
        match e.kind() {
            io::ErrorKind::OutOfMemory => Fault::Memory,
            _ => Fault::Output,
        }
    }
}

impl From<AllocError> for Fault<'_> {
    fn from(_e: AllocError) -> Self {
        Fault::Memory
    }
}

impl<T: Drop> From<AllocFailed<T>> for Fault<'_> {
    fn from(_e: AllocFailed<T>) -> Self {
        Fault::Memory
    }
}
