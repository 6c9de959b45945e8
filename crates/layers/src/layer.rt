ghost use Rattle.std.specs.Prelude.{◌≡◌, Bool};
ghost use Rattle.guard.specs.declared.reading.Reading.{Reading as Read};
ghost use Rattle.guard.specs.Meaning.{Meaning, Laws};
ghost use Rattle.layers.specs.Layered.{Kept};

use guard::Guard;
use guard::reading::Reading;

// What a layer over the guard G adds: a condition on safe readings and one on recoverable readings. An implementation
// says by `safely` and `recoverably` what they are, over the meaning of the guard below, and shows that they keep its laws;
// it owes nothing else.
pub trait Layer<G: Guard> {
    ghost safely: { Self → Meaning G.State → Read G.State → Bool };

    ghost recoverably: { Self → Meaning G.State → Read G.State → Bool };

    // Whether the layer calls the reading safe, where the guard below does.
    fn is_safe(&self, below: &G, r: Reading<G::State>) -> bool
        ensures { result ≡ safely self.now (G.Guard.meaning below.now) r };

    // Whether the layer calls the reading recoverable, where the guard below does.
    fn is_recoverable(&self, below: &G, r: Reading<G::State>) -> bool
        ensures { result ≡ recoverably self.now (G.Guard.meaning below.now) r };

    ghost keeps: { (l : Self) (m : Meaning G.State) → Laws m → Kept m (safely l m) (recoverably l m) };
}
