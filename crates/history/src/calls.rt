ghost use Rattle.std.specs.Prelude.{ℕ};
ghost use Rattle.history.specs.Refusals.{numbered};

use guard::reading::Reading;
use guard::refusal::Refusal;

// The four numbers of a grant: the mission's, the tick at the decision, the action that is granted, and why.
#[derive(Clone, Copy, Debug, PartialEq, Eq)]
pub struct Ticket {
    pub mission: u32,
    pub tick: u32,
    pub action: u8,
    // a number and no `Reason`, since any four numbers can be presented
    pub reason: u8,
}

// What can be asked of an executive.
#[derive(Clone, Copy, Debug, PartialEq, Eq)]
pub enum Call<S> {
    Begin(Reading<S>),
    Decide(u8),
    Spend(Ticket),
    Observe(Reading<S>),
    Close,
}

// Why a call is refused.
#[derive(Clone, Copy, Debug, PartialEq, Eq)]
pub enum CallRefusal {
    // the call has no place in the phase
    WrongPhase = 6,
    // the reading is not recoverable
    NotRecoverable = 7,
    // one of the four numbers differs from the grant given
    OtherGrant = 8,
    // the state cannot follow the last one under the granted action
    StateCannotFollow = 9,
    // the charge cannot follow
    ChargeCannotFollow = 10,
    // the mission has had its 1,000,000 ticks
    MissionOver = 11,
}

impl Refusal for CallRefusal {
    ghost meant = { numbered };

    fn number(&self) -> u8 {
        // a cast has no generic form
        *self as u8
    }
}

// What an accepted close answers.
#[derive(Clone, Copy, Debug, PartialEq, Eq)]
pub struct Totals {
    pub tick: u32,
    pub given: u32,
    pub spent: u32,
    pub gains: u32,
    pub losses: u32,
}

// What a call answers. No `Result`, since every definition over a history would take it apart twice; each call by itself answers one.
// A begin and an observe are accepted without more, a decide with a grant, a spend with the action, a close with the totals.
#[derive(Clone, Copy, Debug, PartialEq, Eq)]
pub enum Answer {
    Accepted,
    Granted(Ticket),
    Spent(u8),
    Ended(Totals),
    Refused(CallRefusal),
}
