use crate::common::{executive, runs_to};
use cart::Cart;
use executive::held::Executive;
use history::phase::Phase;
use std::test::Fail;

// Begin at place 500 at rest with charge 200, decide 6, begin once more, observe place 504 and speed 4 with charge 196, close.
const TAPE: &[u8] = b"4D5401 F4010000 00000000 00000000 C800
    4D5402 06
    4D5401 F4010000 00000000 00000000 C800
    4D5403 F8010000 04000000 00000000 C400
    4D5404";

const SWITCH: &[u8] = b"4D4C05 00000000 03 F4010000 00000000 00000000 C800";

const SWITCH_AND_REFUSAL: &[u8] = b"4D4C05 00000000 03 F4010000 00000000 00000000 C800
    4D4C06 02000000 06";

const WHOLE: &[u8] = b"4D4C05 00000000 03 F4010000 00000000 00000000 C800
    4D4C06 02000000 06
    4D4C07 01000000 01000000 01000000 01000000 00000000";

// The action that is being carried out. Bound by copy: a pattern that looks into it, as in `matches!`, gets no proof.
fn moving(e: &Executive<Cart>) -> Option<u8> {
    match e.phase() {
        Phase::Moving(_, action) => Some(action),
        _ => None,
    }
}

#[test]
fn whole_log(rt: HostRuntime) -> Result<(), Fail> {
    let mut e = executive()?;
    runs_to(&rt, &mut e, TAPE, 53, 0, WHOLE)?;
    let mut e = executive()?;
    runs_to(&rt, &mut e, TAPE, 60, 0, WHOLE)
}

// The switch needs 22 bytes, the refusal 8 and the closing 23. The call has been made where its record finds no room.
#[test]
fn log_too_short_at_every_byte(rt: HostRuntime) -> Result<(), Fail> {
    for size in 0..53usize {
        let mut e = executive()?;
        if size < 22 {
            runs_to(&rt, &mut e, TAPE, size, 16, b"")?;
            assert_eq!(rt; moving(&e), Some(6));
        } else if size < 30 {
            runs_to(&rt, &mut e, TAPE, size, 16, SWITCH)?;
            assert_eq!(rt; moving(&e), Some(6));
        } else {
            runs_to(&rt, &mut e, TAPE, size, 16, SWITCH_AND_REFUSAL)?;
            assert_eq!(rt; e.phase(), Phase::Closed);
        }
    }
    Ok(())
}
