ghost use Rattle.std.specs.Prelude.{◌+◌, ◌≤◌};
ghost use Rattle.executive.specs.Counts.{most, unspent};

use crate::control::Control;
use guard::Guard;
use history::calls::Totals;
use history::phase::Phase;

// An executive: it grants a proposal only where the machine stays recoverable.
#[derive(Drop)]
pub struct Executive<G: Guard> {
    pub(crate) guard: G,
    pub(crate) mission: u32,
    pub(crate) phase: Phase<G::State>,
    pub(crate) control: Control,
    // the tick and the counts so far
    pub(crate) totals: Totals,
    ghost few: { (most phase totals.tick ≤ 1000000) × (totals.given ≤ most phase totals.tick) × (totals.spent + unspent phase ≤ totals.given) × (totals.gains ≤ totals.given) × (totals.losses ≤ totals.given) },
}
