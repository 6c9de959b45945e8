use crate::common::{BEGIN, CLOSE, CLOSING, DECIDE, OBSERVE, REFUSAL, SWITCH, noted, only};
use records::record::Record;
use records::writer::write;
use std::process::Abort;
use std::test::Fail;

// Writing the record gives the bytes, and reading the bytes gives the record.
fn both_ways(rt: &impl Abort, r: Record, bytes: &[u8]) -> Result<(), Fail> {
    let mut buffer = [0xAA; 32];
    let end = write(&mut buffer, 0, r)?;
    assert!(rt; end <= 32);
    assert!(rt; &buffer[0..end] == bytes);
    assert_eq!(rt; only(rt, bytes)?, r);
    Ok(())
}

#[test]
fn begin(rt: HostRuntime) -> Result<(), Fail> {
    let reading = noted(-1, i32::MIN, i32::MAX, 65535);
    both_ways(&rt, Record::Begin { reading }, &BEGIN)
}

#[test]
fn decide(rt: HostRuntime) -> Result<(), Fail> {
    both_ways(&rt, Record::Decide { proposal: 255 }, &DECIDE)
}

#[test]
fn observe(rt: HostRuntime) -> Result<(), Fail> {
    let reading = noted(-2, 256, 65536, 258);
    both_ways(&rt, Record::Observe { reading }, &OBSERVE)
}

#[test]
fn close(rt: HostRuntime) -> Result<(), Fail> {
    both_ways(&rt, Record::Close, &CLOSE)
}

#[test]
fn switch(rt: HostRuntime) -> Result<(), Fail> {
    let r = Record::Switch {
        tick: 4_294_967_295,
        reason: 2,
        reading: noted(-1000, 40, -40, 1000),
    };
    both_ways(&rt, r, &SWITCH)
}

#[test]
fn refusal(rt: HostRuntime) -> Result<(), Fail> {
    let r = Record::Refusal {
        place: 16_909_060,
        refusal: 255,
    };
    both_ways(&rt, r, &REFUSAL)
}

#[test]
fn closing(rt: HostRuntime) -> Result<(), Fail> {
    let r = Record::Closing {
        tick: 1_000_000,
        given: 1_000_001,
        spent: 999_999,
        gains: 0,
        losses: 4_294_967_295,
    };
    both_ways(&rt, r, &CLOSING)
}
