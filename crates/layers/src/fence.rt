ghost use Rattle.std.specs.Prelude.{◌≡◌};
ghost use Rattle.guard.specs.Meaning.{Laws};
ghost use Rattle.layers.specs.Drafts.{drafted};
ghost use Rattle.layers.specs.Fence.{placed_outside, covers_clear, fenced};
ghost use Rattle.layers.specs.Fenced.{fence_kept};

use crate::draft::Draft;
use crate::layer::Layer;
use crate::layered::Layered;
use guard::Guard;
use guard::reading::Reading;

// A guard that keeps its machine out of the regions of a draft, which it has taken over.
pub type Fence<G> = Layered<G, Draft>;

impl Draft {
    // Uses the draft up, and makes the fence over a guard.
    pub fn seal<G: Guard>(self, below: G) -> Fence<G>
        ensures below { result.below ≡ below }
        ensures regions { drafted result.layer ≡ drafted self }
        ensures meaning { ⟦<Fence<G> as Guard>⟧.meaning result ≡ fenced (drafted self) (G.Guard.meaning below) }
        ensures laws { Laws (fenced (drafted self) (G.Guard.meaning below)) }
    {
        Layered::over(below, self)
    }
}

impl<G: Guard> Layer<G> for Draft {
    ghost safely = { λ d. placed_outside (drafted d) };

    ghost recoverably = { λ d. covers_clear (drafted d) };

    ghost keeps = { λ d. fence_kept (drafted d) };

    fn is_safe(&self, below: &G, r: Reading<G::State>) -> bool
        ensures { result ≡ placed_outside (drafted self.now) (G.Guard.meaning below.now) r }
    {
        self.excludes(below.place(r.state))
    }

    fn is_recoverable(&self, below: &G, r: Reading<G::State>) -> bool
        ensures { result ≡ covers_clear (drafted self.now) (G.Guard.meaning below.now) r }
    {
        self.clears(&below.cover(r.state))
    }
}
