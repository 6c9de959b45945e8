#![tactic(auto)]

ghost use Rattle.std.specs.Prelude.{◌≡◌};
ghost use Rattle.std.specs.Option.{ok_or};
ghost use Rattle.guard.specs.Meaning.{Meaning, Laws};
ghost use Rattle.guard.specs.declared.refusal.StateRefusal.TheVariants.{NoSuchState};

pub mod fallback;
pub mod geometry;
pub mod reading;
pub mod reason;
pub mod refusal;
pub mod rule;

use geometry::{Point, Region};
use reading::Reading;
use refusal::StateRefusal;

// A machine, bare or under layers, and its way to rest. An implementation says by `meaning` what its questions answer,
// and shows that the meaning keeps the laws; it owes nothing else.
pub trait Guard {
    type State: Copy;

    // How many actions there are, 1 to 64, numbered from 0.
    const ACTIONS: u8;

    // How many gusts there are, 1 to 64, numbered from 0. A gust is one of the ways in which the hall disturbs an action.
    const GUSTS: u8;

    ghost meaning: { Self → Meaning Self.State };

    fn action_count(&self) -> u8
        ensures { result ≡ (meaning self.now).actions };

    fn gust_count(&self) -> u8
        ensures { result ≡ (meaning self.now).gusts };

    // The state after one tick; the same state for an action or a gust out of range.
    fn after(&self, s: Self::State, a: u8, w: u8) -> Self::State
        ensures { result ≡ (meaning self.now).after s a w };

    // The most charge that the action takes; 0 for an action out of range.
    fn draw(&self, s: Self::State, a: u8) -> u16
        ensures { result ≡ (meaning self.now).draw s a };

    fn place(&self, s: Self::State) -> Point
        ensures { result ≡ (meaning self.now).place s };

    // The cover of a state: a region that holds every place on the machine's way to rest.
    fn cover(&self, s: Self::State) -> Region
        ensures { result ≡ (meaning self.now).cover s };

    // At most how many ticks of its fallback bring the machine to rest; at rest, 0.
    fn ticks(&self, s: Self::State) -> u16
        ensures { result ≡ (meaning self.now).ticks s };

    // The action that leads to rest.
    fn fallback(&self, s: Self::State) -> u8
        ensures { result ≡ (meaning self.now).fallback s };

    // The most charge that a tick of the fallback takes on the way to rest.
    fn fallback_draw(&self) -> u16
        ensures { result ≡ (meaning self.now).fallback_draw };

    fn safe(&self, r: Reading<Self::State>) -> bool
        ensures { result ≡ (meaning self.now).safe r };

    // Whether the fallback keeps the machine safe from here on, whatever the gusts.
    fn recoverable(&self, r: Reading<Self::State>) -> bool
        ensures { result ≡ (meaning self.now).recoverable r };

    // The three numbers by which records name the state.
    fn numbers(&self, s: Self::State) -> (i32, i32, i32)
        ensures { result ≡ (meaning self.now).numbers s };

    // The state that has these numbers.
    fn state(&self, n: (i32, i32, i32)) -> Result<Self::State, StateRefusal>
        ensures { result ≡ ok_or ((meaning self.now).made n) NoSuchState };

    ghost lawful: { (g : Self) → Laws (meaning g) };
}
