use executive::control::Control;
use executive::held::Executive;
use guard::Guard;
use history::phase::Phase;
use records::reader::Reader;
use records::record::Record;
use runs::witness::Witness;
use std::alloc::Global;
use std::io::{BufWriter, Stdout, Write};
use std::{fmt, io};
use text::hex::Hex;
use text::line::Line;
use text::words;

// What a record of a tape came to; a refusal by its number, as the log has it.
#[derive(Clone, Copy)]
enum Outcome {
    Accepted,
    Granted(u8, Control),
    Closed(Record),
    Refused(u8),
}

impl fmt::Display for Outcome {
    fn fmt<W: fmt::Write>(&self, f: &mut fmt::Formatter<W>) -> fmt::Result {
        match *self {
            Outcome::Accepted => f.write_str("accepted"),
            Outcome::Granted(action, control) => {
                write!(f, "granted {action}, {control} in control")
            }
            Outcome::Closed(closing) => { write!(f, "{}", Line(closing)) }
            Outcome::Refused(number) => {
                let why = words::refusal(number);
                write!(f, "refused {number} ({why})")
            }
        }
    }
}

impl Outcome {
    // By the record, what is to be logged of it, and the executive as it stands then.
    fn of<G: Guard>(record: Record, entry: Option<Record>, e: &Executive<G>) -> Outcome {
        match (entry, record, e.phase()) {
            (Some(Record::Refusal { refusal, .. }), _, _) => Outcome::Refused(refusal),
            (Some(closing), Record::Close, _) => Outcome::Closed(closing),
            (_, Record::Decide { .. }, Phase::Moving(_, action)) => {
                Outcome::Granted(action, e.control())
            }
            _ => Outcome::Accepted,
        }
    }
}

// Prints a line for each record that it is told of.
#[derive(Drop)]
pub struct Teller {
    out: BufWriter<Stdout>,
    // the number of the next record
    next: u32,
    // how many bytes the log entries have of which it was told
    due: usize,
    // how the lines told of went, up to the first that could not be printed
    told: io::Result<()>,
}

impl<G: Guard> Witness<G> for Teller {
    fn saw(&mut self, place: u32, record: Record, entry: Option<Record>, e: &Executive<G>) {
        let line = Line(record);
        let outcome = Outcome::of(record, entry, e);
        if self.told.is_ok() {
            self.told = writeln!(self.out, "{place}: {line} -> {outcome}");
        }
        if let Some(r) = entry {
            self.due = self.due.saturating_add(3 + r.kind().body_len());
        }
        self.next = place.wrapping_add(1);
    }
}

impl Teller {
    pub fn new(alloc: Global, out: Stdout) -> io::Result<Teller> {
        Ok(Teller {
            out: BufWriter::new(alloc, out)?,
            next: 0,
            due: 0,
            told: Ok(()),
        })
    }

    // How many bytes the log entries have of which it was told.
    pub fn due(&self) -> usize {
        self.due
    }

    // A line for the record after the last one, which cannot be read and is refused under this number.
    pub fn misread(&mut self, number: u8) -> io::Result<()> {
        let (next, outcome) = (self.next, Outcome::Refused(number));
        writeln!(self.out, "{next}: no record -> {outcome}")
    }

    // A line for each record of the log.
    pub fn show_log(&mut self, log: &[u8]) -> io::Result<()> {
        let mut reader = Reader::new(log);
        loop {
            let from = reader.rest();
            match reader.next() {
                Ok(Some(_)) => {
                    let hex = Hex(&from[..from.len() - reader.rest().len()]);
                    writeln!(self.out, "log {hex}")?;
                }
                _ => return Ok(()),
            }
        }
    }

    // Writes out what has been held back. An error of a line that was told of is only known here.
    pub fn finish(&mut self) -> io::Result<()> {
        match &self.told {
            Ok(()) => self.out.flush(),
            Err(e) => Err(io::Error::from(e.kind())),
        }
    }
}
