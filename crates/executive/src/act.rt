ghost use Rattle.std.specs.Prelude.{◌≡◌};
ghost use Rattle.executive.specs.Acting.{Acted};
ghost use Rattle.executive.specs.Holding.{held};

use crate::held::Executive;
use guard::Guard;
use history::calls::{CallRefusal, Ticket};

impl<G: Guard> Executive<G> {
    // Decides and spends the grant at once, which is then always taken, and answers the grant's numbers.
    pub fn act(&mut self, b: u8) -> Result<Ticket, CallRefusal>
        ensures acted { Acted (G.Guard.meaning self.old.guard) self.old.mission (held self.old) b result (held self.new) }

        // said of each function that changes an executive, since an invariant sees one value alone
        ensures guard { self.new.guard ≡ self.old.guard }
        ensures mission { self.new.mission ≡ self.old.mission }
    {
        let grant = self.decide(b)?;
        let ticket = grant.ticket();
        match self.spend(grant) {
            Ok(_) => Ok(ticket),
            Err(_) => unreachable(),
        }
    }
}
