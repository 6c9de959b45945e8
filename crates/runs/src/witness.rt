use executive::held::Executive;
use guard::Guard;
use records::record::Record;

// Someone who is told of each record of a tape that a run has dealt with.
pub trait Witness<G: Guard> {
    // The record with this number was dealt with. The entry is what is to be logged of it, and the executive stands as it left it.
    fn saw(&mut self, place: u32, record: Record, entry: Option<Record>, e: &Executive<G>);
}

// Nobody.
#[derive(Clone, Copy, Debug, PartialEq, Eq)]
pub struct Unseen;

impl<G: Guard> Witness<G> for Unseen {
    fn saw(&mut self, _place: u32, _record: Record, _entry: Option<Record>, _e: &Executive<G>) {}
}
