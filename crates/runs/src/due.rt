ghost use Rattle.std.specs.Prelude.{◌≡◌};
ghost use Rattle.runs.specs.Dues.{entry_of, end_of};

use crate::refusal::{RecordRefusal, RunRefusal};
use guard::refusal::Refusal;
use records::record::Record;

// What is due of a record of a tape: what is to be logged, and the refusal that ends the run with it, if one does.
#[derive(Clone, Copy, Debug, PartialEq, Eq)]
pub(crate) struct Due {
    pub(crate) entry: Option<Record>,
    pub(crate) ending: Option<RunRefusal>,
}

impl Due {
    // What is due of the record with this number, by what it came to.
    pub(crate) fn of(place: u32, outcome: Result<Option<Record>, RecordRefusal>) -> Due
        ensures entry { result.entry ≡ entry_of place outcome }
        ensures ending { result.ending ≡ end_of outcome }
    {
        match outcome {
            Ok(entry) => Due {
                entry,
                ending: None,
            },
            Err(x) => Due {
                entry: Some(Record::Refusal {
                    place,
                    refusal: x.number(),
                }),
                ending: x.ending(),
            },
        }
    }
}
