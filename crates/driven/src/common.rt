use cart::Cart;
use executive::held::Executive;
use runs::run::run;
use std::process::Abort;
use std::test::Fail;
use text::hex;

pub const BEGIN: &[u8] = b"4D5401 F4010000 00000000 00000000 C800";

pub const CLOSE: &[u8] = b"4D5404";

// What a log holds before a run.
const UNUSED: u8 = 0xAA;

// An executive over a cart with a rail of length 1,000.
pub fn executive() -> Result<Executive<Cart>, Fail> {
    Ok(Executive::new(Cart::new(1000)?, 7))
}

// The log begins with these bytes and is unused behind them.
fn holds(rt: &impl Abort, log: &[u8], due: &[u8]) {
    assert!(rt; log.starts_with(due));
    assert!(rt; log.iter().skip(due.len()).all(|b| *b == UNUSED));
}

// A run of the tape into a log of so many bytes ends with the number, and has logged this; all in hexadecimal text.
pub fn runs_to(
    rt: &(impl Abort + AllocGlobal),
    e: &mut Executive<Cart>,
    tape: &[u8],
    size: usize,
    number: u8,
    due: &[u8],
) -> Result<(), Fail> {
    let tape = hex::bytes(rt.alloc(), tape)?;
    let due = hex::bytes(rt.alloc(), due)?;
    let mut log = vec![in rt.alloc(); UNUSED; size]?;
    let ended = run(e, tape.as_slice(), log.as_mut_slice());
    assert_eq!(rt; ended.number(), number);
    assert_eq!(rt; ended.written, due.len());
    holds(rt, log.as_slice(), due.as_slice());
    Ok(())
}
