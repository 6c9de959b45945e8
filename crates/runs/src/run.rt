ghost use Rattle.std.specs.Prelude.{◌≡◌};
ghost use Rattle.records.specs.Readers.{unread};
ghost use Rattle.runs.specs.Asking.{asks};
ghost use Rattle.runs.specs.Deeds.{Carried};
ghost use Rattle.runs.specs.Ran.{NextDue, Kept, Came, Ran};
ghost use Rattle.runs.specs.Refusals.{end_number};

use crate::deed;
use crate::due::Due;
use crate::refusal::{RecordRefusal, RunRefusal, TapeRefusal};
use crate::witness::{Unseen, Witness};
use executive::held::Executive;
use guard::Guard;
use guard::refusal::Refusal;
use records::reader::Reader;
use records::record::Record;
use records::refusal::WriteRefusal;
use records::writer::write;

// What a run came to: how many bytes of the log were written, and the refusal that ended it, none at the tape's end.
#[derive(Clone, Copy, Debug, PartialEq, Eq)]
pub struct Ended {
    // a number beside the log, which is lent and has its size
    pub written: usize,
    pub refusal: Option<RunRefusal>,
}

impl Ended {
    // The number of the refusal that ended the run; 0 at the tape's end.
    pub fn number(&self) -> u8
        ensures { result ≡ end_number self.now.refusal }
    {
        match self.refusal {
            Some(x) => x.number(),
            None => 0,
        }
    }
}

// Makes the calls that the record asks for, and answers what it comes to.
fn carry_out<G: Guard>(e: &mut Executive<G>, r: Record) -> Result<Option<Record>, RecordRefusal>
    ensures { Carried (G.Guard.meaning e.old.guard) (asks (G.Guard.meaning e.old.guard) r) result e.old e.new }
{
    match r {
        Record::Begin { reading } => deed::begin(e, reading),
        Record::Decide { proposal } => deed::decide(e, proposal),
        Record::Observe { reading } => deed::observe(e, reading),
        Record::Close => deed::close(e),
        Record::Switch { .. } | Record::Refusal { .. } | Record::Closing { .. } => {
            Err(RecordRefusal::Ends(RunRefusal::Tape(TapeRefusal::LogRecord)))
        }
    }
}

// Reads the next record of the tape and carries it out; none at the tape's end.
fn next_due<G: Guard, W: Witness<G>>(
    e: &mut Executive<G>,
    reader: &mut Reader<'_>,
    place: u32,
    w: &mut W,
) -> Option<Due>
    ensures due { NextDue (G.Guard.meaning e.old.guard) place (unread reader.old) result e.old e.new (unread reader.new) }

    // as in `act` of an executive: said of each function that changes it
    ensures guard { e.new.guard ≡ e.old.guard }
    ensures mission { e.new.mission ≡ e.old.mission }
{
    match reader.next() {
        Ok(None) => None,
        Ok(Some(r)) => {
            let due = Due::of(place, carry_out(e, r));
            w.saw(place, r, due.entry, e);
            Some(due)
        }
        Err(x) => Some(Due::of(place, Err(RecordRefusal::Ends(RunRefusal::Read(x))))),
    }
}

// Writes the entry, if there is one, and answers where the next one goes.
fn keep(log: &mut [u8], at: usize, entry: Option<Record>) -> Result<usize, WriteRefusal>
    ensures { Kept log.old at entry result log.new }
{
    match entry {
        None => Ok(at),
        Some(r) => write(log, at, r),
    }
}

fn run_through<G: Guard, W: Witness<G>>(
    e: &mut Executive<G>,
    tape: &[u8],
    log: &mut [u8],
    w: &mut W,
) -> Ended
    ensures { Came (G.Guard.meaning e.old.guard) tape.now log.old result log.new e.old e.new }
{
    let mut reader = Reader::new(tape);
    // counted here, since the records' numbers wrap at 32 bits
    let mut place = 0u32;
    let mut written = 0;
    while let Some(due) = next_due(e, &mut reader, place, w) {
        // no `?`, since an early end answers what was written too
        match keep(log, written, due.entry) {
            Ok(end) => written = end,
            Err(x) => {
                return Ended {
                    written,
                    refusal: Some(RunRefusal::Write(x)),
                };
            }
        }
        if let Some(refusal) = due.ending {
            return Ended {
                written,
                refusal: Some(refusal),
            };
        }
        place = place.wrapping_add(1);
    }
    Ended {
        written,
        refusal: None,
    }
}

// The same as `run`, with a witness of each record that is dealt with. It has no part in what the run comes to.
pub fn run_watched<G: Guard, W: Witness<G>>(
    e: &mut Executive<G>,
    tape: &[u8],
    log: &mut [u8],
    w: &mut W,
) -> Ended
    ensures { Ran (G.Guard.meaning e.old.guard) tape.now log.old result log.new e.old e.new }
{
    run_through(e, tape, log, w)
}

// Makes the calls that the records of the tape ask for, in order, and logs what they come to. A grant is spent before its
// decision is logged. The run ends at the tape's end, at a record that has no place on it, or where the log has no room.
pub fn run<G: Guard>(e: &mut Executive<G>, tape: &[u8], log: &mut [u8]) -> Ended
    ensures { Ran (G.Guard.meaning e.old.guard) tape.now log.old result log.new e.old e.new }
{
    run_watched(e, tape, log, &mut Unseen)
}
