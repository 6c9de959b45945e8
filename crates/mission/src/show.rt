use crate::fault::Fault;
use crate::input::Source;
use guard::refusal::Refusal;
use records::reader::Reader;
use records::refusal::ReadRefusal;
use std::io;
use text::line::Line;
use text::words;

fn print_refusal(rt: &HostRuntime, offset: usize, refusal: ReadRefusal) -> io::Result<()> {
    let number = refusal.number();
    let why = words::refusal(number);
    println!(rt; "byte {offset}: {why}: refused {number}")
}

// Prints a line for each record up to the end of the tape, or to the first that cannot be read.
fn print(rt: &HostRuntime, tape: &[u8]) -> io::Result<()> {
    let mut reader = Reader::new(tape);
    // counted here, since a reader stays where it was at a fault, so that an iterator over it would have no end
    let mut number: usize = 0;
    loop {
        match reader.next() {
            Ok(Some(record)) => {
                let line = Line(record);
                println!(rt; "{number}: {line}")?;
                number += 1;
            }
            Ok(None) => break,
            Err(refusal) => {
                return print_refusal(rt, tape.len() - reader.rest().len(), refusal);
            }
        }
    }
    if number == 0 {
        println!(rt; "no records")
    } else {
        Ok(())
    }
}

// `mission show [--hex] FILE`.
pub fn run<'a>(rt: &HostRuntime, words: &'a [String]) -> Result<(), Fault<'a>> {
    let tape = Source::named(words)?.bytes(rt)?;
    print(rt, tape.as_slice())?;
    Ok(())
}
