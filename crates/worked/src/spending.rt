ghost use Rattle.std.specs.Prelude.{◌≡◌};
ghost use Rattle.executive.specs.Grants.{ticket_of};
ghost use Rattle.executive.specs.Took.{Took, Back, spending};

use executive::grant::{Grant, Returned};
use executive::held::Executive;
use guard::Guard;
use history::calls::Call;

// Spends a grant as a client does. A grant cannot be let go: a way through that does not spend it is rejected when the
// program is built.
pub fn carry_out<G: Guard>(e: &mut Executive<G>, grant: Grant) -> Result<u8, Returned>
    ensures took { Took (G.Guard.meaning e.old.guard) (Call.Spend (ticket_of grant)) (spending result) e.old e.new }
    ensures back { Back grant result }
{
    e.spend(grant)
}
