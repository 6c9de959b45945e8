ghost use Rattle.std.specs.Prelude.{◌≡◌};
ghost use Rattle.guard.specs.Driven.{lowest as drawn};
ghost use Rattle.guard.specs.Driven.{fallen_back};

use crate::Guard;
use crate::reading::Reading;

// The reading after one tick of the action under the gust, where the most charge is drawn.
pub fn lowest<G: Guard>(g: &G, r: Reading<G::State>, a: u8, w: u8) -> Reading<G::State>
    ensures { result ≡ drawn (G.Guard.meaning g.now) r a w }
{
    Reading {
        state: g.after(r.state, a, w),
        charge: r.charge.saturating_sub(g.draw(r.state, a)),
    }
}

// The reading after one tick of the machine's fallback under the gust, where the most charge is drawn.
pub fn fall_back<G: Guard>(g: &G, r: Reading<G::State>, w: u8) -> Reading<G::State>
    ensures { result ≡ fallen_back (G.Guard.meaning g.now) r w }
{
    lowest(g, r, g.fallback(r.state), w)
}
