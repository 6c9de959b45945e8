ghost use Rattle.std.specs.Prelude.{◌≡◌};
ghost use Rattle.history.specs.declared.calls.Call.TheVariants.{Begin, Decide, Observe, Close};
ghost use Rattle.runs.specs.Asking.{calls, reading_of, with_reading};
ghost use Rattle.runs.specs.Deeds.{Carried, switch, closing as ends};

use crate::asking::{noted, reading};
use crate::refusal::RecordRefusal;
use executive::held::Executive;
use guard::Guard;
use guard::reading::Reading;
use guard::reason::Reason;
use history::calls::{Ticket, Totals};
use records::record::{Noted, Record};

// No `From`, since neither type is this crate's.
fn closing(t: Totals) -> Record
    ensures { result ≡ ends t }
{
    Record::Closing {
        tick: t.tick,
        given: t.given,
        spent: t.spent,
        gains: t.gains,
        losses: t.losses,
    }
}

fn switched<G: Guard>(g: &G, stored: Option<Reading<G::State>>, t: Ticket) -> Option<Record>
    ensures { result ≡ switch (G.Guard.meaning g.now) stored t }
{
    match stored {
        Some(r) if t.reason != u8::from(Reason::Stays) => Some(Record::Switch {
            tick: t.tick,
            reason: t.reason,
            reading: noted(g, r),
        }),
        _ => None,
    }
}

// A begin and an observe differ in the call alone; a function of both would take it as a parameter, and a clause that it keeps `Took`.
pub(crate) fn begin<G: Guard>(
    e: &mut Executive<G>,
    n: Noted,
) -> Result<Option<Record>, RecordRefusal>
    ensures { Carried (G.Guard.meaning e.old.guard) (with_reading Begin (reading_of (G.Guard.meaning e.old.guard) n)) result e.old e.new }
{
    let r = reading(e.guard(), n)?;
    e.begin(r)?;
    Ok(None)
}

pub(crate) fn observe<G: Guard>(
    e: &mut Executive<G>,
    n: Noted,
) -> Result<Option<Record>, RecordRefusal>
    ensures { Carried (G.Guard.meaning e.old.guard) (with_reading Observe (reading_of (G.Guard.meaning e.old.guard) n)) result e.old e.new }
{
    let r = reading(e.guard(), n)?;
    e.observe(r)?;
    Ok(None)
}

// The grant is spent before anything is logged.
pub(crate) fn decide<G: Guard>(e: &mut Executive<G>, b: u8) -> Result<Option<Record>, RecordRefusal>
    ensures { Carried (G.Guard.meaning e.old.guard) (calls (Decide b)) result e.old e.new }
{
    let stored = e.reading();
    let t = e.act(b)?;
    Ok(switched(e.guard(), stored, t))
}

pub(crate) fn close<G: Guard>(e: &mut Executive<G>) -> Result<Option<Record>, RecordRefusal>
    ensures { Carried (G.Guard.meaning e.old.guard) (calls Close) result e.old e.new }
{
    let t = e.close()?;
    Ok(Some(closing(t)))
}
