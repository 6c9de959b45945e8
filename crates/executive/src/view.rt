ghost use Rattle.std.specs.Prelude.{◌≡◌};
ghost use Rattle.executive.specs.Controls.{control_of};
ghost use Rattle.executive.specs.Holding.{held};
ghost use Rattle.executive.specs.View.{reading_of};

pub use crate::control::Control;
use crate::held::Executive;
use guard::Guard;
use guard::reading::Reading;
use history::phase::Phase;

impl<G: Guard> Executive<G> {
    pub fn guard(&self) -> &G
        ensures { result.now ≡ self.now.guard }
    {
        &self.guard
    }

    pub fn phase(&self) -> Phase<G::State>
        ensures { result ≡ (held self.now).phase }
    {
        self.phase
    }

    pub fn tick(&self) -> u32
        ensures { result ≡ (held self.now).tick }
    {
        self.totals.tick
    }

    pub fn control(&self) -> Control
        ensures { result ≡ control_of (held self.now).planner }
    {
        self.control
    }

    // The last accepted reading; none before the mission begins and after it is closed.
    pub fn reading(&self) -> Option<Reading<G::State>>
        ensures { result ≡ reading_of (held self.now).phase }
    {
        match self.phase {
            Phase::Ready(r) | Phase::Granted(r, _) | Phase::Moving(r, _) => Some(r),
            Phase::Parked | Phase::Closed => None,
        }
    }
}
