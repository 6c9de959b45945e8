use crate::calls::Ticket;
use guard::reading::Reading;

// Where an executive stands in its mission, with what stands there: the last accepted reading, the grant that is out,
// the action that is being carried out.
#[derive(Clone, Copy, Debug, PartialEq, Eq)]
pub enum Phase<S> {
    Parked,
    Ready(Reading<S>),
    Granted(Reading<S>, Ticket),
    Moving(Reading<S>, u8),
    Closed,
}
