ghost use Rattle.std.specs.Prelude.{◌≡◌, ◌+◌, ◌*◌, ◌/◌, ◌^◌, ◌<◌};

use crate::fault::{Fault, Why};
use crate::input::Source;
use crate::options::Options;
use crate::telling::Teller;
use executive::held::Executive;
use guard::Guard;
use guard::refusal::Refusal;
use records::reader::Reader;
use records::refusal::ReadRefusal;
use runs::refusal::RunRefusal;
use runs::run;
use runs::run::Ended;
use std::fs;

// How many bytes hold the log of any run over so many bytes of a tape: a record of the tape has at least 3 and logs at most 23,
// and one that cannot be read is logged too.
fn room(tape: usize) -> usize
    ensures { tape < 2 ^ 32 → result ≡ (tape / 3 + 1) * 23 }
{
    (tape / 3 + 1).saturating_mul(23)
}

// Reads the whole tape, up to the first record that cannot be read.
fn read_all(tape: &[u8]) -> Result<(), ReadRefusal> {
    let mut reader = Reader::new(tape);
    while reader.next()?.is_some() {}
    Ok(())
}

// Runs the tape and prints what comes of each record, and the log.
fn run_telling<'a, G: Guard>(
    rt: &HostRuntime,
    e: &mut Executive<G>,
    tape: &[u8],
    log: &mut [u8],
) -> Result<Ended, Fault<'a>> {
    let mut teller = Teller::new(rt.alloc(), rt.stdout())?;
    let ended = run::run_watched(e, tape, log, &mut teller);
    // a run does not tell of a record that cannot be read, and where the log has no room for its refusal, not even why
    let unread = match ended.refusal {
        Some(RunRefusal::Read(x)) => Some(x),
        Some(RunRefusal::Write(_)) if teller.due() == ended.written => read_all(tape).err(),
        _ => None,
    };
    if let Some(refusal) = unread {
        teller.misread(refusal.number())?;
    }
    teller.show_log(&log[..ended.written.min(log.len())])?;
    teller.finish().map_err(|_| Fault::Output)?;
    Ok(ended)
}

fn store<'a>(rt: &HostRuntime, file: &'a str, log: &[u8]) -> Result<(), Fault<'a>> {
    fs::write(rt, file, log).map_err(|_| Fault::Word(Why::NotWritten, file))
}

// Runs the tape through a new executive over the guard.
pub fn run<'a, G: Guard + Drop>(
    rt: &HostRuntime,
    g: G,
    word: &'a str,
    given: Options<'a>,
) -> Result<(), Fault<'a>> {
    let form = given.form;
    let tape = Source { form, word }.bytes(rt)?;
    let size = given.log_size.unwrap_or(room(tape.len()));
    let mut log = vec![in rt.alloc(); 0u8; size]?;
    let mut e = Executive::new(g, given.mission);
    let ended = if given.quiet {
        run::run(&mut e, tape.as_slice(), log.as_mut_slice())
    } else {
        run_telling(rt, &mut e, tape.as_slice(), log.as_mut_slice())?
    };
    let (number, written) = (ended.number(), ended.written);
    if let Some(file) = given.log {
        store(rt, file, &log.as_slice()[..written.min(log.len())])?;
    }
    println!(rt; "ended {number} written {written}")?;
    Ok(())
}
