ghost use Rattle.std.specs.Prelude.{◌≡◌, ◌<◌};
ghost use Rattle.guard.specs.Reasons.{number_of};
ghost use Rattle.history.specs.Due.{choice as chosen};
ghost use Rattle.history.specs.Outcome.{outcome, unused, ticket, after_giving};
ghost use Rattle.executive.specs.Controls.{has_planner};
ghost use Rattle.executive.specs.Holding.{held, Unaltered};

use crate::control::Control;
use crate::held::Executive;
use guard::Guard;
use guard::reading::Reading;
use guard::reason::Reason;
use guard::rule::{admissible, calm, charge_can_follow, state_can_follow};
use history::calls::{Answer, Call, CallRefusal, Ticket, Totals};
use history::phase::Phase;

// A mission has at most this many ticks.
const MOST_TICKS: u32 = 1_000_000;

// The action to grant and the reason for it.
#[derive(Clone, Copy, Debug, PartialEq, Eq)]
struct Choice {
    action: u8,
    reason: Reason,
}

// The proposal is granted where the one in control allows it, and else the fallback.
fn choose<G: Guard>(g: &G, control: Control, r: Reading<G::State>, b: u8) -> Choice
    ensures action { result.action ≡ (chosen (G.Guard.meaning g.now) (has_planner control) r b).0 }
    ensures reason { number_of result.reason ≡ (chosen (G.Guard.meaning g.now) (has_planner control) r b).1 }
{
    let known = b < g.action_count();
    let action = g.fallback(r.state);
    match control {
        Control::Planner if !known => Choice {
            action,
            reason: Reason::NoAction,
        },
        Control::Planner if !admissible(g, r, b) => Choice {
            action,
            reason: Reason::NotAdmissible,
        },
        Control::Planner => Choice {
            action: b,
            reason: Reason::Stays,
        },
        Control::Keeper if known && calm(g, r) => Choice {
            action: b,
            reason: Reason::Calm,
        },
        Control::Keeper => Choice {
            action,
            reason: Reason::Stays,
        },
    }
}

impl<G: Guard> Executive<G> {
    // Parked, with the keeper in control, no reading, and every count 0.
    pub(crate) fn fresh(guard: G, mission: u32) -> Executive<G>
        ensures held { held result ≡ unused }
        ensures guard { result.guard ≡ guard }
        ensures mission { result.mission ≡ mission }
    {
        Executive {
            guard,
            mission,
            phase: Phase::Parked,
            control: Control::Keeper,
            totals: Totals {
                tick: 0,
                given: 0,
                spent: 0,
                gains: 0,
                losses: 0,
            },
        }
    }

    fn give(&mut self, r: Reading<G::State>, b: u8) -> Ticket
        requires { (self.old.phase ≡ Phase.Ready r) × (self.old.totals.tick < 1000000) }
        ensures value { result ≡ ticket (G.Guard.meaning self.old.guard) self.old.mission (held self.old) r b }
        ensures held { held self.new ≡ after_giving (held self.old) r result }

        // said of each function that changes an executive, since an invariant sees one value alone
        ensures guard { self.new.guard ≡ self.old.guard }
        ensures mission { self.new.mission ≡ self.old.mission }
    {
        let choice = choose(&self.guard, self.control, r, b);
        let tick = self.totals.tick;
        let grant = Ticket {
            mission: self.mission,
            tick,
            action: choice.action,
            reason: choice.reason.into(),
        };
        self.phase = Phase::Granted(r, grant);
        self.totals.given += 1;
        match choice.reason {
            Reason::Stays => {}
            Reason::NoAction | Reason::NotAdmissible => {
                self.control = Control::Keeper;
                self.totals.losses += 1;
            }
            Reason::Calm => {
                self.control = Control::Planner;
                self.totals.gains += 1;
            }
        }
        grant
    }

    // The phase and the call together decide.
    pub(crate) fn step(&mut self, call: Call<G::State>) -> Answer
        ensures value { result ≡ (outcome (G.Guard.meaning self.old.guard) self.old.mission (held self.old) call).answer }
        ensures held { held self.new ≡ (outcome (G.Guard.meaning self.old.guard) self.old.mission (held self.old) call).held }

        // as in `give`
        ensures guard { self.new.guard ≡ self.old.guard }
        ensures mission { self.new.mission ≡ self.old.mission }
        ensures unaltered { Unaltered result self.old self.new }
    {
        match (self.phase, call) {
            (Phase::Parked, Call::Begin(r)) => {
                if !self.guard.recoverable(r) {
                    return Answer::Refused(CallRefusal::NotRecoverable);
                }
                self.phase = Phase::Ready(r);
                Answer::Accepted
            }
            (Phase::Ready(r), Call::Decide(b)) => {
                if self.totals.tick >= MOST_TICKS {
                    return Answer::Refused(CallRefusal::MissionOver);
                }
                Answer::Granted(self.give(r, b))
            }
            (Phase::Granted(r, given), Call::Spend(t)) => {
                if given != t {
                    return Answer::Refused(CallRefusal::OtherGrant);
                }
                self.phase = Phase::Moving(r, given.action);
                self.totals.spent += 1;
                Answer::Spent(given.action)
            }
            (Phase::Moving(r, a), Call::Observe(t)) => {
                if !state_can_follow(&self.guard, r.state, a, t.state) {
                    return Answer::Refused(CallRefusal::StateCannotFollow);
                }
                if !charge_can_follow(&self.guard, r, a, t.charge) {
                    return Answer::Refused(CallRefusal::ChargeCannotFollow);
                }
                self.phase = Phase::Ready(t);
                self.totals.tick += 1;
                Answer::Accepted
            }
            (Phase::Ready(_) | Phase::Moving(_, _), Call::Close) => {
                self.phase = Phase::Closed;
                Answer::Ended(self.totals)
            }
            _ => Answer::Refused(CallRefusal::WrongPhase),
        }
    }
}
