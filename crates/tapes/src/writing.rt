use crate::common::noted;
use guard::refusal::Refusal;
use records::record::Record;
use records::writer::write;
use std::process::Abort;
use std::test::Fail;

// No room for the record at the place, and the buffer as it was.
fn no_room(rt: &impl Abort, buffer: &mut [u8], at: usize, r: Record) -> Result<(), Fail> {
    let refusal = write(buffer, at, r).err();
    assert_eq!(rt; refusal.map(|e| e.number()), Some(16));
    assert!(rt; buffer.iter().all(|b| *b == 0xAA));
    Ok(())
}

fn ends(rt: &impl Abort, buffer: &mut [u8], at: usize, r: Record, end: usize) -> Result<(), Fail> {
    assert_eq!(rt; write(buffer, at, r), Ok(end));
    Ok(())
}

#[test]
fn one_byte_too_few(rt: HostRuntime) -> Result<(), Fail> {
    let reading = noted(1, 2, 3, 4);
    no_room(&rt, &mut [0xAA; 16], 0, Record::Begin { reading })?;
    no_room(&rt, &mut [0xAA; 3], 0, Record::Decide { proposal: 1 })?;
    no_room(&rt, &mut [0xAA; 2], 0, Record::Close)?;
    let r = Record::Switch {
        tick: 1,
        reason: 1,
        reading,
    };
    no_room(&rt, &mut [0xAA; 21], 0, r)?;
    let r = Record::Refusal {
        place: 0,
        refusal: 6,
    };
    no_room(&rt, &mut [0xAA; 7], 0, r)
}

#[test]
fn exactly_enough(rt: HostRuntime) -> Result<(), Fail> {
    let reading = noted(1, 2, 3, 4);
    ends(&rt, &mut [0xAA; 17], 0, Record::Observe { reading }, 17)?;
    ends(&rt, &mut [0xAA; 4], 0, Record::Decide { proposal: 1 }, 4)?;
    ends(&rt, &mut [0xAA; 8], 5, Record::Close, 8)?;
    let r = Record::Refusal {
        place: 0,
        refusal: 6,
    };
    ends(&rt, &mut [0xAA; 9], 1, r, 9)
}

#[test]
fn past_the_end(rt: HostRuntime) -> Result<(), Fail> {
    no_room(&rt, &mut [0xAA; 4], 2, Record::Close)?;
    no_room(&rt, &mut [0xAA; 4], 4, Record::Close)?;
    no_room(&rt, &mut [0xAA; 4], 5, Record::Close)?;
    no_room(&rt, &mut [0xAA; 4], usize::MAX, Record::Close)?;
    no_room(&rt, &mut [], 0, Record::Close)
}

#[test]
fn other_bytes_stay(rt: HostRuntime) -> Result<(), Fail> {
    let mut buffer = [0xAA; 10];
    ends(&rt, &mut buffer, 3, Record::Decide { proposal: 7 }, 7)?;
    assert!(rt; buffer == [0xAA, 0xAA, 0xAA, 0x4D, 0x54, 2, 7, 0xAA, 0xAA, 0xAA]);
    Ok(())
}
