ghost use Rattle.std.specs.Prelude.{◌≡◌, ◌&&◌};
ghost use Rattle.layers.specs.Layer.{under};
ghost use Rattle.layers.specs.Layered.{layered_laws};

use crate::layer::Layer;
use guard::Guard;
use guard::geometry::{Point, Region};
use guard::reading::Reading;
use guard::refusal::StateRefusal;

// A guard under a layer.
#[derive(Drop)]
pub struct Layered<G, L> {
    pub(crate) below: G,
    pub(crate) layer: L,
}

impl<G: Guard, L: Layer<G>> Layered<G, L> {
    // The guard under this layer.
    pub fn over(below: G, layer: L) -> Layered<G, L>
        ensures below { result.below ≡ below }
        ensures layer { result.layer ≡ layer }
    {
        Layered { below, layer }
    }
}

impl<G: Guard, L: Layer<G>> Guard for Layered<G, L> {
    type State = G::State;

    const ACTIONS: u8 = G::ACTIONS;

    const GUSTS: u8 = G::GUSTS;

    ghost meaning = { λ g. under (L.Layer.safely g.layer) (L.Layer.recoverably g.layer) (G.Guard.meaning g.below) };

    ghost lawful = { λ g. let m = G.Guard.meaning g.below in let laws = G.Guard.lawful g.below in layered_laws m (L.Layer.safely g.layer m) (L.Layer.recoverably g.layer m) laws (L.Layer.keeps g.layer m laws) };

    fn action_count(&self) -> u8 {
        self.below.action_count()
    }

    fn gust_count(&self) -> u8 {
        self.below.gust_count()
    }

    fn after(&self, s: G::State, a: u8, w: u8) -> G::State {
        self.below.after(s, a, w)
    }

    fn draw(&self, s: G::State, a: u8) -> u16 {
        self.below.draw(s, a)
    }

    fn place(&self, s: G::State) -> Point {
        self.below.place(s)
    }

    fn cover(&self, s: G::State) -> Region {
        self.below.cover(s)
    }

    fn ticks(&self, s: G::State) -> u16 {
        self.below.ticks(s)
    }

    fn fallback(&self, s: G::State) -> u8 {
        self.below.fallback(s)
    }

    fn fallback_draw(&self) -> u16 {
        self.below.fallback_draw()
    }

    fn safe(&self, r: Reading<G::State>) -> bool
        ensures { result ≡ (under (L.Layer.safely self.now.layer) (L.Layer.recoverably self.now.layer) (G.Guard.meaning self.now.below)).safe r }
    {
        self.below.safe(r) && self.layer.is_safe(&self.below, r)
    }

    fn recoverable(&self, r: Reading<G::State>) -> bool
        ensures { result ≡ (under (L.Layer.safely self.now.layer) (L.Layer.recoverably self.now.layer) (G.Guard.meaning self.now.below)).recoverable r }
    {
        self.below.recoverable(r) && self.layer.is_recoverable(&self.below, r)
    }

    fn numbers(&self, s: G::State) -> (i32, i32, i32) {
        self.below.numbers(s)
    }

    fn state(&self, n: (i32, i32, i32)) -> Result<G::State, StateRefusal> {
        self.below.state(n)
    }
}
