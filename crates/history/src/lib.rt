#![tactic(auto)]

ghost use Rattle.std.specs.Prelude.{ℕ};
ghost use Rattle.history.specs.Due.{Right};
ghost use Rattle.history.specs.Findings.{Findings};
ghost use Rattle.history.specs.History.{History};

use guard::Guard;

pub mod calls;
pub mod phase;

// Whatever the guard, the findings hold of every history in which each answer is the one that is due.
pub fn findings_hold<G: Guard>(guard: &G)
    ensures { (mission : ℕ) (h : History G.State) → Right (G.Guard.meaning guard.now) mission h → Findings (G.Guard.meaning guard.now) mission h }
{
    let _ = guard;
}
