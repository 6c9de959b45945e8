use guard::reading::Reading;
use guard::refusal::Refusal;
use records::reader::Reader;
use records::record::{Noted, Record};
use std::process::Abort;
use std::test::Fail;

// A whole record of each kind.
pub const BEGIN: [u8; 17] = [
    0x4D, 0x54, 1, 0xFF, 0xFF, 0xFF, 0xFF, 0, 0, 0, 0x80, 0xFF, 0xFF, 0xFF, 0x7F, 0xFF, 0xFF,
];

pub const DECIDE: [u8; 4] = [0x4D, 0x54, 2, 0xFF];

pub const OBSERVE: [u8; 17] = [
    0x4D, 0x54, 3, 0xFE, 0xFF, 0xFF, 0xFF, 0, 1, 0, 0, 0, 0, 1, 0, 2, 1,
];

pub const CLOSE: [u8; 3] = [0x4D, 0x54, 4];

pub const SWITCH: [u8; 22] = [
    0x4D, 0x4C, 5, 0xFF, 0xFF, 0xFF, 0xFF, 2, 0x18, 0xFC, 0xFF, 0xFF, 0x28, 0, 0, 0, 0xD8, 0xFF,
    0xFF, 0xFF, 0xE8, 3,
];

pub const REFUSAL: [u8; 8] = [0x4D, 0x4C, 6, 4, 3, 2, 1, 0xFF];

pub const CLOSING: [u8; 23] = [
    0x4D, 0x4C, 7, 0x40, 0x42, 0x0F, 0, 0x41, 0x42, 0x0F, 0, 0x3F, 0x42, 0x0F, 0, 0, 0, 0, 0, 0xFF,
    0xFF, 0xFF, 0xFF,
];

pub fn noted(x: i32, y: i32, z: i32, charge: u16) -> Noted {
    Reading {
        state: (x, y, z),
        charge,
    }
}

// The only record of the tape.
pub fn only(rt: &impl Abort, tape: &[u8]) -> Result<Record, Fail> {
    let mut reader = Reader::new(tape);
    let Some(r) = reader.next()? else {
        return Err(Fail::new("no record"));
    };
    assert!(rt; reader.rest().is_empty());
    Ok(r)
}

// Reading from the tape is refused under the number, and leaves the reader where it was.
pub fn refused(rt: &impl Abort, tape: &[u8], number: u8) -> Result<(), Fail> {
    let mut reader = Reader::new(tape);
    let refusal = reader.next().err();
    assert_eq!(rt; refusal.map(|e| e.number()), Some(number));
    assert!(rt; reader.rest() == tape);
    Ok(())
}
