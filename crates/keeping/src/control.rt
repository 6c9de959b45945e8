ghost use Rattle.std.specs.Prelude.{◌≡◌};
ghost use Rattle.keeping.specs.Control.{up_to, closed_by as closes, start_after as starts};

use crate::ticks::Ticks;
use guard::reason::Reason;
use records::record::Record;

// The start is a plain `Option`: a struct around it would only be wrapped and unwrapped in each of these functions.

// The range that ends there, if one is open and it has a tick.
fn range_to(start: Option<u32>, end: u32) -> Option<Ticks>
    ensures { result ≡ up_to start end }
{
    match start {
        Some(first) if first < end => Some(Ticks { first, end }),
        _ => None,
    }
}

// The range of the planner's ticks that the record of a log ends, where the planner has control since the start, if it has.
pub fn closed_by(start: Option<u32>, r: Record) -> Option<Ticks>
    ensures { result ≡ closes start r }
{
    match r {
        Record::Switch { tick, reason, .. } => match Reason::try_from(reason) {
            Ok(Reason::NoAction | Reason::NotAdmissible) => range_to(start, tick),
            _ => None,
        },
        Record::Closing { given, .. } => range_to(start, given),
        _ => None,
    }
}

// Since when the planner has control after the record, if it has.
pub fn start_after(start: Option<u32>, r: Record) -> Option<u32>
    ensures { result ≡ starts start r }
{
    match r {
        Record::Switch { tick, reason, .. } => match Reason::try_from(reason) {
            Ok(Reason::NoAction | Reason::NotAdmissible) => None,
            Ok(Reason::Calm) => start.or(Some(tick)),
            _ => start,
        },
        Record::Closing { .. } => None,
        _ => start,
    }
}
