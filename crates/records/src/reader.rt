ghost use Rattle.std.specs.Prelude.{◌≡◌, ◌≤◌, ◌∷◌, ◌++◌, length};
ghost use Rattle.records.specs.Kinds.{kind_of, length_of};
ghost use Rattle.records.specs.Reads.{record_of, read_kind};
ghost use Rattle.records.specs.Reading.{Decoded, Decodes, Next};

use crate::fields::{noted_at, u32_at};
use crate::record::{Kind, Record};
use crate::refusal::ReadRefusal;

// A tape, or a log, from the first record that has not been read on.
#[derive(Clone, Copy)]
pub struct Reader<'a> {
    tape: &'a [u8],
}

fn record(kind: Kind, body: &[u8]) -> Record
    requires { length_of kind ≤ length body.now }
    ensures value { result ≡ record_of kind body.now }
{
    match kind {
        Kind::Begin => Record::Begin {
            reading: noted_at(body, 0),
        },
        Kind::Decide => Record::Decide { proposal: body[0] },
        Kind::Observe => Record::Observe {
            reading: noted_at(body, 0),
        },
        Kind::Close => Record::Close,
        Kind::Switch => Record::Switch {
            tick: u32_at(body, 0),
            reason: body[4],
            reading: noted_at(body, 5),
        },
        Kind::Refusal => Record::Refusal {
            place: u32_at(body, 0),
            refusal: body[4],
        },
        Kind::Closing => Record::Closing {
            tick: u32_at(body, 0),
            given: u32_at(body, 4),
            spent: u32_at(body, 8),
            gains: u32_at(body, 12),
            losses: u32_at(body, 16),
        },
    }
}

// The record after its mark and its kind byte, whose body begins what is handed, and what is left after it.
fn decode_kind<'a>(
    mark: [u8; 2],
    kind: u8,
    body: &'a [u8],
) -> Result<(Record, &'a [u8]), ReadRefusal>
    ensures { Decoded (read_kind (kind_of kind) mark body.now) result }
{
    let kind = Kind::try_from(kind)?;
    if mark != kind.mark() {
        return Err(ReadRefusal::WrongMark);
    }
    let n = kind.body_len();
    if body.len() < n {
        return Err(ReadRefusal::Cut);
    }
    Ok((record(kind, body), &body[n..]))
}

fn decode<'a>(mark: [u8; 2], kind: u8, body: &'a [u8]) -> Result<(Record, &'a [u8]), ReadRefusal>
    ensures value { Decoded (read_kind (kind_of kind) mark body.now) result }
    ensures taken { Decodes (mark ++ (kind ∷ body.now)) result }
{
    decode_kind(mark, kind, body)
}

impl<'a> Reader<'a> {
    pub fn new(tape: &'a [u8]) -> Reader<'a>
        ensures { result.tape.now ≡ tape.now }
    {
        Reader { tape }
    }

    // What has not been read.
    pub fn rest(&self) -> &'a [u8]
        ensures { result.now ≡ self.now.tape.now }
    {
        self.tape
    }

    // The next record; none at the end of the tape. A refusal leaves the reader where it was.
    pub fn next(&mut self) -> Result<Option<Record>, ReadRefusal>
        ensures { Next self.old.tape.now result self.new.tape.now }
    {
        match self.tape {
            [] => Ok(None),
            [m0, m1, kind, body @ ..] => {
                let (record, rest) = decode([*m0, *m1], *kind, body)?;
                *self = Reader::new(rest);
                Ok(Some(record))
            }
            _ => Err(ReadRefusal::Cut),
        }
    }
}
