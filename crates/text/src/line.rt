use crate::words;
use records::record::{Noted, Record};
use std::fmt;

// A record in words, with all its numbers.
#[derive(Clone, Copy, Debug, PartialEq, Eq)]
pub struct Line(pub Record);

// A reading by its numbers.
#[derive(Clone, Copy, Debug, PartialEq, Eq)]
struct At(Noted);

impl fmt::Display for At {
    fn fmt<W: fmt::Write>(&self, f: &mut fmt::Formatter<W>) -> fmt::Result {
        let ((x, y, z), charge) = (self.0.state, self.0.charge);
        write!(f, "state {x} {y} {z}, charge {charge}")
    }
}

impl fmt::Display for Line {
    fn fmt<W: fmt::Write>(&self, f: &mut fmt::Formatter<W>) -> fmt::Result {
        match self.0 {
            Record::Begin { reading } => write!(f, "begin: {}", At(reading)),
            Record::Decide { proposal } => write!(f, "decide: proposal {proposal}"),
            Record::Observe { reading } => write!(f, "observe: {}", At(reading)),
            Record::Close => write!(f, "close"),
            Record::Switch {
                tick,
                reason,
                reading,
            } => {
                let (why, at) = (words::reason(reason), At(reading));
                write!(f, "switch: tick {tick}, reason {reason} ({why}), {at}")
            }
            Record::Refusal { place, refusal } => {
                let why = words::refusal(refusal);
                write!(f, "refusal: record {place}, refusal {refusal} ({why})")
            }
            Record::Closing {
                tick,
                given,
                spent,
                gains,
                losses,
            } => write!(
                f,
                "closing: tick {tick}, given {given}, spent {spent}, gains {gains}, losses {losses}"
            ),
        }
    }
}
