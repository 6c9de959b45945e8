// What a machine reports: its state, and its charge from 0 to 65,535.
#[derive(Clone, Copy, Debug, PartialEq, Eq)]
pub struct Reading<S> {
    pub state: S,
    pub charge: u16,
}
