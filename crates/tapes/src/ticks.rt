use crate::common::{CLOSE, noted};
use keeping::planned::LogFault;
use keeping::scan::planner_ticks;
use records::record::Record;
use records::refusal::ReadRefusal;
use records::writer::write;
use std::process::Abort;
use std::test::Fail;

fn switch(tick: u32, reason: u8) -> Record {
    Record::Switch {
        tick,
        reason,
        reading: noted(500, 0, 0, 200),
    }
}

fn closing(tick: u32, given: u32) -> Record {
    Record::Closing {
        tick,
        given,
        spent: given,
        gains: 0,
        losses: 0,
    }
}

fn write_all(log: &mut [u8], records: &[Record]) -> Result<usize, Fail> {
    let mut end = 0;
    for r in records {
        end = write(log, end, *r)?;
    }
    Ok(end)
}

// A log of these records has exactly these ranges, by their first ticks and their ends, and this open one.
fn found(
    rt: &(impl Abort + AllocGlobal),
    records: &[Record],
    ranges: &[(u32, u32)],
    open: Option<u32>,
) -> Result<(), Fail> {
    let mut log = [0; 256];
    let end = write_all(&mut log, records)?;
    let planned = planner_ticks(rt.alloc(), &log[..end.min(256)])?;
    assert_eq!(rt; planned.open, open);
    assert_eq!(rt; planned.ranges.len(), ranges.len());
    for (ticks, (first, end)) in planned.ranges.iter().zip(ranges) {
        assert_eq!(rt; (ticks.first, ticks.end), (*first, *end));
    }
    Ok(())
}

#[test]
fn gains_and_losses(rt: HostRuntime) -> Result<(), Fail> {
    found(&rt, &[], &[], None)?;
    let lost = [switch(0, 3), switch(4, 1), closing(9, 9)];
    found(&rt, &lost, &[(0, 4)], None)?;
    let twice = [switch(2, 3), switch(3, 2), switch(5, 3), closing(9, 10)];
    found(&rt, &twice, &[(2, 3), (5, 10)], None)?;
    found(&rt, &[switch(7, 3), closing(7, 8)], &[(7, 8)], None)?;
    let open = [switch(2, 3), switch(4, 2), switch(6, 3)];
    found(&rt, &open, &[(2, 4)], Some(6))
}

#[test]
fn what_changes_nothing(rt: HostRuntime) -> Result<(), Fail> {
    let refusal = Record::Refusal {
        place: 3,
        refusal: 6,
    };
    let other = [
        switch(1, 1),
        switch(2, 3),
        switch(4, 3),
        switch(5, 0),
        switch(5, 4),
        refusal,
        switch(6, 2),
    ];
    found(&rt, &other, &[(2, 6)], None)?;
    found(&rt, &[switch(4, 3), switch(4, 1)], &[], None)?;
    found(&rt, &[switch(9, 3), closing(3, 3)], &[], None)
}

#[test]
fn no_logs(rt: HostRuntime) -> Result<(), Fail> {
    let tape = planner_ticks(rt.alloc(), &CLOSE);
    assert_eq!(rt; tape.err(), Some(LogFault::OfTape(0)));
    let mixed = planner_ticks(rt.alloc(), &[0x4D, 0x4C, 6, 0, 0, 0, 0, 7, 0x4D, 0x54, 4]);
    assert_eq!(rt; mixed.err(), Some(LogFault::OfTape(8)));
    let cut = planner_ticks(rt.alloc(), &[0x4D, 0x4C, 6, 0, 0, 0, 0, 7, 0x4D, 0x4C, 5]);
    assert_eq!(rt; cut.err(), Some(LogFault::Unread(8, ReadRefusal::Cut)));
    Ok(())
}
