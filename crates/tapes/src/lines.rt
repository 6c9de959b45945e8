use crate::common::{BEGIN, CLOSE, CLOSING, DECIDE, OBSERVE, REFUSAL, SWITCH, only};
use std::process::Abort;
use std::test::Fail;
use text::line::Line;

fn told(rt: &(impl Abort + AllocGlobal), tape: &[u8], words: &str) -> Result<(), Fail> {
    let line = format!(in rt.alloc(); "{}", Line(only(rt, tape)?))?;
    assert!(rt; line.as_str() == words);
    Ok(())
}

#[test]
fn records_of_a_tape(rt: HostRuntime) -> Result<(), Fail> {
    told(
        &rt,
        &BEGIN,
        "begin: state -1 -2147483648 2147483647, charge 65535",
    )?;
    told(&rt, &DECIDE, "decide: proposal 255")?;
    told(&rt, &OBSERVE, "observe: state -2 256 65536, charge 258")?;
    told(&rt, &CLOSE, "close")
}

#[test]
fn records_of_a_log(rt: HostRuntime) -> Result<(), Fail> {
    told(
        &rt,
        &SWITCH,
        "switch: tick 4294967295, reason 2 (the proposal is not admissible, so control goes to the keeper), state -1000 40 -40, charge 1000",
    )?;
    told(
        &rt,
        &REFUSAL,
        "refusal: record 16909060, refusal 255 (unknown refusal)",
    )?;
    told(
        &rt,
        &CLOSING,
        "closing: tick 1000000, given 1000001, spent 999999, gains 0, losses 4294967295",
    )
}
