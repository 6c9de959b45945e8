ghost use Rattle.std.specs.Prelude.{◌≡◌, pos, IfErr, Decides};
ghost use Rattle.guard.specs.Driven.{Withstands};
ghost use Rattle.guard.specs.Regions.{encloses};
ghost use Rattle.cart.specs.Meaning.{cart as means};
ghost use Rattle.cart.specs.BrakingDistance.{distance};
ghost use Rattle.cart.specs.Making.{lengths, rail};
ghost use Rattle.machines.specs.Rolling.{on_axis, stretch as span, braking_cover};
ghost use Rattle.machines.specs.Refusals.{numbered};
ghost use Rattle.cart.specs.Laws.{cart_laws};

use super::Cart;
use super::state::CartState;
use super::state::moves::{ACTIONS, BRAKE, GUSTS};
use guard::Guard;
use guard::geometry::{Point, Region};
use guard::reading::Reading;
use guard::refusal::StateRefusal;
use machines::making::MakingRefusal;

const MAX_LENGTH: i32 = 100_000;

fn at(x: i32) -> Point
    ensures { result ≡ on_axis x }
{
    Point { x, y: 0, z: 0 }
}

fn stretch(from: i32, to: i32) -> Region
    ensures { result ≡ span from to }
{
    Region {
        low: at(from),
        high: at(to),
    }
}

impl Cart {
    // The cart on a rail of this length.
    pub fn new(length: i32) -> Result<Cart, MakingRefusal>
        ensures value { lengths result ≡ rail length }
        ensures number { IfErr result (λ e. numbered e ≡ 3) }
    {
        if (1..=MAX_LENGTH).contains(&length) {
            Ok(Cart { length })
        } else {
            Err(MakingRefusal::RailLength)
        }
    }

    // Whether the longest braking from here ends on the rail.
    fn stops_on_rail(&self, s: CartState) -> bool
        ensures { result ≡ encloses (span (pos 0) self.now.length) (braking_cover distance s.x s.v) }
    {
        stretch(0, self.length).encloses(&self.cover(s))
    }
}

impl Guard for Cart {
    type State = CartState;

    const ACTIONS: u8 = ACTIONS;

    const GUSTS: u8 = GUSTS;

    ghost meaning = { λ c. means c.length };

    ghost lawful = { λ c. cart_laws c.length c.short };

    // The counts stand beside the constants, since generic code sees no constant's value.
    fn action_count(&self) -> u8 {
        Self::ACTIONS
    }

    fn gust_count(&self) -> u8 {
        Self::GUSTS
    }

    fn after(&self, s: CartState, a: u8, w: u8) -> CartState {
        s.after(a, w)
    }

    fn draw(&self, s: CartState, a: u8) -> u16 {
        s.draw(a)
    }

    fn place(&self, s: CartState) -> Point {
        at(s.x())
    }

    fn cover(&self, s: CartState) -> Region {
        let x = s.x();
        let d = s.braking_distance() as i32;
        if s.v() >= 0 {
            stretch(x, x + d)
        } else {
            stretch(x - d, x)
        }
    }

    fn ticks(&self, s: CartState) -> u16 {
        s.ticks()
    }

    fn fallback(&self, s: CartState) -> u8 {
        let _ = s;
        BRAKE
    }

    fn fallback_draw(&self) -> u16 {
        1
    }

    fn safe(&self, r: Reading<CartState>) -> bool
        ensures { result ≡ (means self.now.length).safe r }
    {
        stretch(0, self.length).holds(self.place(r.state))
    }

    fn recoverable(&self, r: Reading<CartState>) -> bool
        ensures value { result ≡ (means self.now.length).recoverable r }
        ensures exact { Decides result (Withstands (means self.now.length) r) }
    {
        self.stops_on_rail(r.state)
    }

    fn numbers(&self, s: CartState) -> (i32, i32, i32) {
        s.into()
    }

    fn state(&self, n: (i32, i32, i32)) -> Result<CartState, StateRefusal> {
        CartState::try_from(n)
    }
}
