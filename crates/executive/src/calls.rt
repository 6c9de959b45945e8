ghost use Rattle.std.specs.Prelude.{◌≡◌};
ghost use Rattle.history.specs.declared.calls.Answer.TheVariants.{Accepted};
ghost use Rattle.executive.specs.Grants.{ticket_of};
ghost use Rattle.executive.specs.Making.{Made};
ghost use Rattle.executive.specs.Took.{Took, Own, Back, accepting, deciding, spending, ending};

use crate::grant::{Grant, Returned};
use crate::held::Executive;
use guard::Guard;
use guard::reading::Reading;
use history::calls::{Answer, Call, CallRefusal, Totals};

impl<G: Guard> Executive<G> {
    // An executive over the guard, which it takes over.
    pub fn new(guard: G, mission: u32) -> Executive<G>
        ensures { Made (G.Guard.meaning guard) guard mission result }
    {
        Executive::fresh(guard, mission)
    }

    // A call of any kind.
    pub(crate) fn take(&mut self, call: Call<G::State>) -> Answer
        ensures took { Took (G.Guard.meaning self.old.guard) call result self.old self.new }
        ensures own { Own call result }
    {
        self.step(call)
    }

    // A call that is accepted without more: a begin or an observe. Each call makes its `Result` of an `Answer`, which is none itself.
    fn accept(&mut self, call: Call<G::State>) -> Result<(), CallRefusal>
        requires { Own call Accepted }
        ensures { Took (G.Guard.meaning self.old.guard) call (accepting result) self.old self.new }
    {
        match self.take(call) {
            Answer::Accepted => Ok(()),
            Answer::Refused(x) => Err(x),
            _ => unreachable(),
        }
    }

    // Begins the mission at a reading.
    pub fn begin(&mut self, r: Reading<G::State>) -> Result<(), CallRefusal>
        ensures { Took (G.Guard.meaning self.old.guard) (Call.Begin r) (accepting result) self.old self.new }
    {
        self.accept(Call::Begin(r))
    }

    // Grants the proposed action, or the fallback.
    pub fn decide(&mut self, b: u8) -> Result<Grant, CallRefusal>
        ensures { Took (G.Guard.meaning self.old.guard) (Call.Decide b) (deciding result) self.old self.new }
    {
        match self.take(Call::Decide(b)) {
            Answer::Granted(t) => Ok(Grant::of(t)),
            Answer::Refused(x) => Err(x),
            _ => unreachable(),
        }
    }

    // Spends a grant and answers its action, or gives the grant back.
    pub fn spend(&mut self, grant: Grant) -> Result<u8, Returned>
        ensures took { Took (G.Guard.meaning self.old.guard) (Call.Spend (ticket_of grant)) (spending result) self.old self.new }
        ensures back { Back grant result }
    {
        match self.take(Call::Spend(grant.ticket())) {
            Answer::Spent(a) => {
                grant.end();
                Ok(a)
            }
            Answer::Refused(refusal) => Err(Returned { grant, refusal }),
            _ => unreachable(),
        }
    }

    // Takes the reading after the granted action.
    pub fn observe(&mut self, r: Reading<G::State>) -> Result<(), CallRefusal>
        ensures { Took (G.Guard.meaning self.old.guard) (Call.Observe r) (accepting result) self.old self.new }
    {
        self.accept(Call::Observe(r))
    }

    // Ends the mission, and answers its tick and counts.
    pub fn close(&mut self) -> Result<Totals, CallRefusal>
        ensures { Took (G.Guard.meaning self.old.guard) Call.Close (ending result) self.old self.new }
    {
        match self.take(Call::Close) {
            Answer::Ended(t) => Ok(t),
            Answer::Refused(x) => Err(x),
            _ => unreachable(),
        }
    }
}
