ghost use Rattle.std.specs.Prelude.{◌≡◌};
ghost use Rattle.std.specs.Option.{ok_or};
ghost use Rattle.records.specs.Bytes.{kind as kind_in};
ghost use Rattle.records.specs.Fitting.{Fitting};
ghost use Rattle.records.specs.Kinds.{kind_of, number_of, mark_of, length_of};
ghost use Rattle.records.specs.declared.refusal.ReadRefusal.TheVariants.{UnknownKind};

use crate::refusal::ReadRefusal;
use guard::reading::Reading;

// What the records of a tape begin with.
pub const TAPE_MARK: [u8; 2] = [0x4D, 0x54];

// What the records of a log begin with.
pub const LOG_MARK: [u8; 2] = [0x4D, 0x4C];

// A reading by the three numbers of its state, which may be those of no state.
pub type Noted = Reading<(i32, i32, i32)>;

// The kinds of records: what a tape asks of an executive, and what a log says of a run.
#[derive(Clone, Copy, Debug, PartialEq, Eq)]
pub enum Kind {
    Begin = 1,
    Decide = 2,
    Observe = 3,
    Close = 4,
    Switch = 5,
    Refusal = 6,
    Closing = 7,
}

impl TryFrom<u8> for Kind {
    type Error = ReadRefusal;

    // The kind that a kind byte names.
    ghost try_from_gives = { λ byte r. r ≡ ok_or (kind_of byte) UnknownKind };

    fn try_from(byte: u8) -> Result<Kind, ReadRefusal> {
        match byte {
            1 => Ok(Kind::Begin),
            2 => Ok(Kind::Decide),
            3 => Ok(Kind::Observe),
            4 => Ok(Kind::Close),
            5 => Ok(Kind::Switch),
            6 => Ok(Kind::Refusal),
            7 => Ok(Kind::Closing),
            _ => Err(ReadRefusal::UnknownKind),
        }
    }
}

impl From<Kind> for u8 {
    // The kind byte of such a record.
    ghost from_gives = { λ k r. r ≡ number_of k };

    fn from(kind: Kind) -> u8 {
        kind as u8
    }
}

impl Kind {
    // What its records begin with, and how many bytes their bodies have.
    fn layout(self) -> ([u8; 2], usize)
        ensures { result ≡ (mark_of self, length_of self) }
    {
        match self {
            Kind::Begin | Kind::Observe => (TAPE_MARK, 14),
            Kind::Decide => (TAPE_MARK, 1),
            Kind::Close => (TAPE_MARK, 0),
            Kind::Switch => (LOG_MARK, 19),
            Kind::Refusal => (LOG_MARK, 5),
            Kind::Closing => (LOG_MARK, 20),
        }
    }

    pub fn mark(self) -> [u8; 2]
        ensures { result ≡ mark_of self }
    {
        self.layout().0
    }

    // How many bytes the body of such a record has.
    pub fn body_len(self) -> usize
        ensures { result ≡ length_of self }
    {
        self.layout().1
    }
}

// A record of a tape or a log. Reasons and refusals are numbers there, since every byte is allowed.
#[derive(Clone, Copy, Debug, PartialEq, Eq)]
pub enum Record {
    Begin {
        reading: Noted,
    },
    Decide {
        proposal: u8,
    },
    Observe {
        reading: Noted,
    },
    Close,
    // control changed hands in the decision at the tick, at the reading
    Switch {
        tick: u32,
        reason: u8,
        reading: Noted,
    },
    // the record of the tape with this number, from 0 and wrapping at 32 bits, was refused
    Refusal {
        place: u32,
        refusal: u8,
    },
    // a mission was closed, with its tick and its counts
    Closing {
        tick: u32,
        given: u32,
        spent: u32,
        gains: u32,
        losses: u32,
    },
}

impl Record {
    // The kind of the record, whose numbers always fit their fields.
    pub fn kind(self) -> Kind
        ensures value { result ≡ kind_in self }
        ensures fits { Fitting self }
    {
        match self {
            Record::Begin { .. } => Kind::Begin,
            Record::Decide { .. } => Kind::Decide,
            Record::Observe { .. } => Kind::Observe,
            Record::Close => Kind::Close,
            Record::Switch { .. } => Kind::Switch,
            Record::Refusal { .. } => Kind::Refusal,
            Record::Closing { .. } => Kind::Closing,
        }
    }
}
