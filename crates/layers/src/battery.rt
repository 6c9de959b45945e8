ghost use Rattle.std.specs.Prelude.{◌≡◌, ◌+◌, ◌*◌, nat_le};
ghost use Rattle.guard.specs.Meaning.{Laws};
ghost use Rattle.layers.specs.Battery.{charge_left, charge_left_at_rest, reserved};
ghost use Rattle.layers.specs.Reserved.{reserve_kept};

use crate::layer::Layer;
use crate::layered::Layered;
use guard::Guard;
use guard::reading::Reading;

// The charge that a battery keeps.
#[derive(Clone, Copy, Debug, PartialEq, Eq)]
pub struct Reserve {
    pub charge: u16,
}

// A guard with a battery that keeps a reserve of charge.
pub type Battery<G> = Layered<G, Reserve>;

impl<G: Guard> Battery<G> {
    // The guard with a battery that keeps this reserve.
    pub fn new(below: G, reserve: u16) -> Battery<G>
        ensures below { result.below ≡ below }
        ensures reserve { result.layer.charge ≡ reserve }
        ensures meaning { ⟦<Battery<G> as Guard>⟧.meaning result ≡ reserved reserve (G.Guard.meaning below) }
        ensures laws { Laws (reserved reserve (G.Guard.meaning below)) }
    {
        Layered::over(below, Reserve { charge: reserve })
    }
}

// Whether the charge is at least the reserve after so many ticks of this draw.
fn lasts(charge: u16, reserve: u16, draw: u16, ticks: u16) -> bool
    ensures { result ≡ nat_le (reserve + draw * ticks) charge }
{
    u64::from(reserve) + u64::from(draw) * u64::from(ticks) <= u64::from(charge)
}

impl<G: Guard> Layer<G> for Reserve {
    ghost safely = { λ l. charge_left l.charge };

    ghost recoverably = { λ l. charge_left_at_rest l.charge };

    ghost keeps = { λ l. reserve_kept l.charge };

    fn is_safe(&self, _below: &G, r: Reading<G::State>) -> bool
        ensures { result ≡ charge_left self.now.charge (G.Guard.meaning _below.now) r }
    {
        self.charge <= r.charge
    }

    fn is_recoverable(&self, below: &G, r: Reading<G::State>) -> bool
        ensures { result ≡ charge_left_at_rest self.now.charge (G.Guard.meaning below.now) r }
    {
        lasts(
            r.charge,
            self.charge,
            below.fallback_draw(),
            below.ticks(r.state),
        )
    }
}
