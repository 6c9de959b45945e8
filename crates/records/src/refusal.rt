ghost use Rattle.std.specs.Prelude.{ℕ};
ghost use Rattle.records.specs.Refusals.{numbered_read, numbered_write};

use guard::refusal::Refusal;

// Why no record is read.
#[derive(Clone, Copy, Debug, PartialEq, Eq)]
pub enum ReadRefusal {
    // one or two bytes are left, or fewer than the body has
    Cut = 12,
    // the mark is not that of the kind
    WrongMark = 13,
    // the kind is not one of the seven
    UnknownKind = 14,
}

impl Refusal for ReadRefusal {
    ghost meant = { numbered_read };

    fn number(&self) -> u8 {
        // a cast has no generic form
        *self as u8
    }
}

// Why a record is not written.
#[derive(Clone, Copy, Debug, PartialEq, Eq)]
pub enum WriteRefusal {
    // fewer bytes are left than the record has
    NoRoom = 16,
}

impl Refusal for WriteRefusal {
    ghost meant = { numbered_write };

    fn number(&self) -> u8 {
        // a cast has no generic form
        *self as u8
    }
}
