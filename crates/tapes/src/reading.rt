use crate::common::{BEGIN, CLOSE, CLOSING, DECIDE, OBSERVE, REFUSAL, SWITCH, refused};
use records::reader::Reader;
use records::record::Record;
use std::process::Abort;
use std::test::Fail;

fn cut(rt: &impl Abort, whole: &[u8]) -> Result<(), Fail> {
    for n in 1..whole.len() {
        refused(rt, &whole[0..n], 12)?;
    }
    Ok(())
}

#[test]
fn cut_at_every_length(rt: HostRuntime) -> Result<(), Fail> {
    cut(&rt, &BEGIN)?;
    cut(&rt, &DECIDE)?;
    cut(&rt, &OBSERVE)?;
    cut(&rt, &CLOSE)?;
    cut(&rt, &SWITCH)?;
    cut(&rt, &REFUSAL)?;
    cut(&rt, &CLOSING)
}

#[test]
fn too_short_for_a_kind(rt: HostRuntime) -> Result<(), Fail> {
    for b in [0, 1, 0x4C, 0x4D, 0x54, 255] {
        refused(&rt, &[b], 12)?;
        refused(&rt, &[b, 255], 12)?;
        refused(&rt, &[0x4D, b], 12)?;
    }
    Ok(())
}

#[test]
fn unknown_kinds(rt: HostRuntime) -> Result<(), Fail> {
    for kind in [0, 8, 9, 64, 128, 255] {
        refused(&rt, &[0x4D, 0x54, kind], 14)?;
        refused(&rt, &[0x4D, 0x4C, kind, 0, 0], 14)?;
        // the mark is looked at only after the kind
        refused(&rt, &[0, 0, kind], 14)?;
    }
    Ok(())
}

fn wrong_mark(rt: &impl Abort, first: u8, second: u8, kind: u8) -> Result<(), Fail> {
    let mut tape = [0; 24];
    tape[0] = first;
    tape[1] = second;
    tape[2] = kind;
    refused(rt, &tape, 13)?;
    // the body is looked at only after the mark
    refused(rt, &tape[0..3], 13)
}

#[test]
fn wrong_marks(rt: HostRuntime) -> Result<(), Fail> {
    for kind in [1, 2, 3, 4] {
        wrong_mark(&rt, 0x4D, 0x4C, kind)?;
    }
    for kind in [5, 6, 7] {
        wrong_mark(&rt, 0x4D, 0x54, kind)?;
    }
    for (first, second) in [(0x54, 0x4D), (0x4D, 0x4D), (0x4C, 0x54), (0, 0)] {
        wrong_mark(&rt, first, second, 2)?;
        wrong_mark(&rt, first, second, 6)?;
    }
    Ok(())
}

#[test]
fn records_in_a_row(rt: HostRuntime) -> Result<(), Fail> {
    let mut reader = Reader::new(&[0x4D, 0x54, 2, 7, 0x4D, 0x54, 4]);
    assert_eq!(rt; reader.next(), Ok(Some(Record::Decide { proposal: 7 })));
    assert!(rt; reader.rest() == [0x4D, 0x54, 4].as_slice());
    assert_eq!(rt; reader.next(), Ok(Some(Record::Close)));
    for _ in 0..2 {
        assert_eq!(rt; reader.next(), Ok(None));
        assert!(rt; reader.rest().is_empty());
    }
    Ok(())
}

#[test]
fn refused_after_a_record(rt: HostRuntime) -> Result<(), Fail> {
    let mut reader = Reader::new(&[0x4D, 0x54, 4, 0x4D, 0x4C, 4]);
    assert_eq!(rt; reader.next(), Ok(Some(Record::Close)));
    refused(&rt, reader.rest(), 13)
}
