ghost use Rattle.std.specs.Prelude.{◌≡◌};
ghost use Rattle.executive.specs.Grants.{ticket_of};

use history::calls::{CallRefusal, Ticket};

// A grant: the leave to carry out one action, by its four numbers. It can be neither copied nor let go: it has to be spent.
pub struct Grant {
    mission: u32,
    tick: u32,
    action: u8,
    // four plain numbers, as they are presented again
    reason: u8,
}

// A grant that was not taken, and why.
pub struct Returned {
    pub grant: Grant,
    pub refusal: CallRefusal,
}

impl Grant {
    // No `From`, which would let anyone make a grant.
    pub(crate) fn of(t: Ticket) -> Grant
        ensures { ticket_of result ≡ t }
    {
        Grant {
            mission: t.mission,
            tick: t.tick,
            action: t.action,
            reason: t.reason,
        }
    }

    // The grant's four numbers.
    pub fn ticket(&self) -> Ticket
        ensures { result ≡ ticket_of self.now }
    {
        Ticket {
            mission: self.mission,
            tick: self.tick,
            action: self.action,
            reason: self.reason,
        }
    }

    pub(crate) fn end(self) {
        let Grant {
            mission: _,
            tick: _,
            action: _,
            reason: _,
        } = self;
    }
}
