ghost use Rattle.std.specs.Prelude.{◌≡◌, IfOk};
ghost use Rattle.executive.specs.Replay.{Replayed};

use crate::held::Executive;
use guard::Guard;
use history::calls::{Answer, Call};
use std::alloc::{AllocError, Global};

// Makes an executive, makes the calls on it in order, and answers their answers. A spend is given by the grant's four numbers.
pub fn replay<G: Guard + Drop>(
    heap: Global,
    guard: G,
    mission: u32,
    calls: &[Call<G::State>],
) -> Result<Vec<Answer>, AllocError>
    ensures { IfOk result (λ v. Replayed (G.Guard.meaning guard) mission calls.now v.items) }
{
    let mut executive = Executive::new(guard, mission);
    let mut answers = Vec::new(heap);
    for call in calls {
        answers.push(executive.take(*call))?;
    }
    Ok(answers)
}
