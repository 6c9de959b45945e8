ghost use Rattle.std.specs.Prelude.{◌≡◌, ◌+◌, ◌<◌, ◌≤◌, ℤ, pos, unsigned_abs};
ghost use Rattle.std.specs.Option.{ok_or};
ghost use Rattle.guard.specs.declared.refusal.StateRefusal.TheVariants.{NoSuchState};
ghost use Rattle.cart.specs.States.{state_at, pushed as sum, speed_after as next_speed, after as next, draw as drawn, ticks as wait, numbers as named, made};
ghost use Rattle.cart.specs.BrakingDistance.{distance};
ghost use Rattle.machines.specs.Rolling.{slowed as slower};

use super::CartState;
use crate::distances::DISTANCES;
use guard::refusal::StateRefusal;

const MAX_X: i32 = 1_000_000;

const MAX_V: i32 = 40;

pub(crate) const ACTIONS: u8 = 8;

pub(crate) const GUSTS: u8 = 3;

pub(crate) const BRAKE: u8 = 7;

impl CartState {
    // The state with this place and speed, each held within its range.
    fn held(x: i32, v: i32) -> CartState
        ensures { result ≡ state_at x v }
    {
        CartState {
            x: x.clamp(-MAX_X, MAX_X),
            v: v.clamp(-MAX_V, MAX_V),
        }
    }

    // The speed with `by` taken off its size, never past 0.
    fn slowed(self, by: u8) -> i32
        ensures value { result ≡ slower by self.v }
        ensures bound { unsigned_abs result ≤ 40 }
    {
        let by = i32::from(by);
        self.v - self.v.clamp(-by, by)
    }

    // The speed that an acceleration and a gust add up to.
    fn pushed(self, a: u8, w: u8) -> i32
        ensures { result ≡ sum self.v a w }
    {
        let acceleration = i32::from(a) - 3;
        let gust = i32::from(w) - 1;
        self.v + acceleration + gust
    }

    // The speed after one tick of an action.
    fn speed_after(self, a: u8, w: u8) -> i32
        requires { w < 3 }
        ensures value { result ≡ next_speed self.v a w }
        ensures bound { unsigned_abs result ≤ 40 }
    {
        if a == BRAKE {
            self.slowed(2 + w)
        } else {
            self.pushed(a, w).clamp(-MAX_V, MAX_V)
        }
    }

    // The place moves by the new speed.
    pub(crate) fn after(self, a: u8, w: u8) -> CartState
        ensures { result ≡ next self a w }
    {
        if a < ACTIONS && w < GUSTS {
            let v = self.speed_after(a, w);
            CartState::held(self.x + v, v)
        } else {
            self
        }
    }

    pub(crate) fn draw(self, a: u8) -> u16
        ensures { result ≡ drawn self a }
    {
        match a {
            0..BRAKE => 1 + i32::from(a).abs_diff(3) as u16,
            BRAKE if self.v != 0 => 1,
            _ => 0,
        }
    }

    pub(crate) fn braking_distance(self) -> u32
        ensures value { result ≡ distance (unsigned_abs self.v) }
        ensures bound { result ≤ 380 }
    {
        DISTANCES.at(self.v.unsigned_abs() as usize)
    }

    pub(crate) fn x(self) -> i32
        ensures { result ≡ self.x }
    {
        self.x
    }

    pub(crate) fn v(self) -> i32
        ensures { result ≡ self.v }
    {
        self.v
    }

    pub(crate) fn ticks(self) -> u16
        ensures { result ≡ wait self }
    {
        self.v.unsigned_abs().div_ceil(2) as u16
    }
}

impl From<CartState> for (i32, i32, i32) {
    ghost from_gives = { λ s n. n ≡ named s };

    fn from(s: CartState) -> (i32, i32, i32) {
        (s.x, s.v, 0)
    }
}

impl TryFrom<(i32, i32, i32)> for CartState {
    type Error = StateRefusal;

    ghost try_from_gives = { λ n r. r ≡ ok_or (made n) NoSuchState };

    fn try_from(n: (i32, i32, i32)) -> Result<CartState, StateRefusal> {
        let (x, v, zero) = n;
        if x.unsigned_abs() <= MAX_X.unsigned_abs()
            && v.unsigned_abs() <= MAX_V.unsigned_abs()
            && zero == 0
        {
            Ok(CartState::held(x, v))
        } else {
            Err(StateRefusal::NoSuchState)
        }
    }
}
