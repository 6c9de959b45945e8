use crate::common::{BEGIN, CLOSE, executive, runs_to};
use std::test::Fail;

// No state has a speed of 41, which comes before the phase, also after the close.
#[test]
fn no_state_comes_first(rt: HostRuntime) -> Result<(), Fail> {
    let mut e = executive()?;
    let tape = b"4D5403 F4010000 29000000 00000000 C800
        4D5401 F4010000 29000000 00000000 C800
        4D5403 F4010000 00000000 00000000 C800";
    let due = b"4D4C06 00000000 05 4D4C06 01000000 05 4D4C06 02000000 06";
    runs_to(&rt, &mut e, tape, 24, 0, due)
}

// The rail ends at 1,000, so a cart at 911 with speed 20 cannot stop in time. Reading 504 with speed 8 cannot follow 500 at rest.
#[test]
fn refusals_are_logged_and_the_run_goes_on(rt: HostRuntime) -> Result<(), Fail> {
    let mut e = executive()?;
    let tape = b"4D5401 8F030000 14000000 00000000 C800
        4D5401 F4010000 00000000 00000000 C800
        4D5402 03
        4D5403 F8010000 08000000 00000000 C800
        4D5403 F4010000 00000000 00000000 C900
        4D5403 F4010000 00000000 00000000 C700";
    let due = b"4D4C06 00000000 07
        4D4C05 00000000 03 F4010000 00000000 00000000 C800
        4D4C06 03000000 09
        4D4C06 04000000 0A";
    runs_to(&rt, &mut e, tape, 100, 0, due)
}

// After the close every record is refused, and the next run counts its records from 0 again.
#[test]
fn close_does_not_end_the_run(rt: HostRuntime) -> Result<(), Fail> {
    let mut e = executive()?;
    runs_to(&rt, &mut e, BEGIN, 0, 0, b"")?;
    let tape = b"4D5404 4D5404 4D5402 06";
    let due = b"4D4C07 00000000 00000000 00000000 00000000 00000000
        4D4C06 01000000 06
        4D4C06 02000000 06";
    runs_to(&rt, &mut e, tape, 39, 0, due)?;
    runs_to(&rt, &mut e, CLOSE, 8, 0, b"4D4C06 00000000 06")
}

#[test]
fn what_ends_a_run(rt: HostRuntime) -> Result<(), Fail> {
    let mut e = executive()?;
    runs_to(&rt, &mut e, b"4D54", 8, 12, b"4D4C06 00000000 0C")?;
    runs_to(&rt, &mut e, b"4D4C04", 8, 13, b"4D4C06 00000000 0D")?;
    runs_to(&rt, &mut e, b"4D5408 4D5404", 8, 14, b"4D4C06 00000000 0E")?;
    runs_to(
        &rt,
        &mut e,
        b"4D5404 4D5401 00",
        16,
        12,
        b"4D4C06 00000000 06 4D4C06 01000000 0C",
    )?;
    let log_record = b"4D4C06 00000000 06 4D5404";
    runs_to(&rt, &mut e, log_record, 8, 15, b"4D4C06 00000000 0F")?;
    // its refusal finds no room
    runs_to(&rt, &mut e, log_record, 7, 16, b"")?;
    runs_to(&rt, &mut e, b"4D", 7, 16, b"")?;
    runs_to(&rt, &mut e, b"", 0, 0, b"")
}
