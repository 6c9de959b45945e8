ghost use Rattle.std.specs.Prelude.{◌≡◌};
ghost use Rattle.records.specs.Tapes.{contents};
ghost use Rattle.keeping.specs.Found.{in_log, Found};

use crate::control::{closed_by, start_after};
use crate::planned::{LogFault, Planned};
use records::reader::Reader;
use records::record::{LOG_MARK, Record};
use std::alloc::Global;

fn is_log(r: Record) -> bool
    ensures { result ≡ in_log r }
{
    r.kind().mark() == LOG_MARK
}

// The ticks in which the planner had control, by the bytes of a log.
pub fn planner_ticks(heap: Global, log: &[u8]) -> Result<Planned, LogFault>
    ensures { Found (contents log.now).records (contents log.now).stop result }
{
    let mut reader = Reader::new(log);
    let mut ranges = Vec::new(heap);
    let mut open = None;
    loop {
        let at = log.len() - reader.rest().len();
        let Some(r) = reader
            .next()
            .map_err(|refusal| LogFault::Unread(at, refusal))?
        else {
            return Ok(Planned { ranges, open });
        };
        if !is_log(r) {
            return Err(LogFault::OfTape(at));
        }
        if let Some(ticks) = closed_by(open, r) {
            ranges.push(ticks)?;
        }
        open = start_after(open, r);
    }
}
