use crate::fault::Fault;
use crate::input::Source;
use keeping::planned::{LogFault, Planned};
use keeping::scan::planner_ticks;
use std::io;
use std::io::{BufWriter, Write};

// Prints the ranges, a line each with its first tick and its last, and how many ticks they have in all. Of a range whose end is not
// known, only the first tick is counted.
fn print(rt: &HostRuntime, found: &Planned) -> io::Result<()> {
    let mut out = BufWriter::new(rt.alloc(), rt.stdout())?;
    let mut total = 0u64;
    for ticks in found.ranges.as_slice() {
        let (first, last) = (ticks.first, ticks.end.saturating_sub(1));
        writeln!(out, "{first} to {last}")?;
        total = total.saturating_add(u64::from(ticks.len()));
    }
    match found.open {
        Some(first) => {
            let least = total.saturating_add(1);
            writeln!(out, "from {first} on: the log has no closing record")?;
            writeln!(out, "at least {least} ticks in all")?;
        }
        None => writeln!(out, "{total} ticks in all")?,
    }
    out.flush()
}

// `mission keep [--hex] LOG`: the ticks in which the planner had control.
pub fn run<'a>(rt: &HostRuntime, words: &'a [String]) -> Result<(), Fault<'a>> {
    let source = Source::named(words)?;
    let (word, log) = (source.word, source.bytes(rt)?);
    // no `From` for the errors, since a fault names the word beside them
    match planner_ticks(rt.alloc(), log.as_slice()) {
        Ok(found) => {
            print(rt, &found)?;
            Ok(())
        }
        Err(LogFault::Unread(at, refusal)) => Err(Fault::Unread(at, refusal, word)),
        Err(LogFault::OfTape(at)) => Err(Fault::OfTape(at, word)),
        Err(LogFault::Memory) => Err(Fault::Memory),
    }
}
