ghost use Rattle.std.specs.Prelude.{◌≡◌, ◌<◌, ◌≤◌, ◌+ℤ◌, unsigned_abs};
ghost use Rattle.std.specs.Option.{ok_or};
ghost use Rattle.guard.specs.declared.refusal.StateRefusal.TheVariants.{NoSuchState};
ghost use Rattle.drone.specs.States.{cell_at, step as stepped, push, climbed as risen, flown as blown, lifted as raised, after as next};
ghost use Rattle.drone.specs.States.{draw as drawn, numbers as named, made};
ghost use Rattle.drone.specs.Meaning.{point as located, cover as covered, place as placed};

use super::DroneState;
use guard::geometry::{Point, Region};
use guard::refusal::StateRefusal;

const MAX_XY: i32 = 1000;

const MAX_Z: u16 = 1000;

pub(crate) const ACTIONS: u8 = 7;

pub(crate) const GUSTS: u8 = 9;

// Actions are numbers, as every guard's are; an enum of them would be made in `after` and in `draw` only to be matched on.
const HOVER: u8 = 0;

const X_UP: u8 = 1;

const X_DOWN: u8 = 2;

const Y_UP: u8 = 3;

const Y_DOWN: u8 = 4;

const CLIMB: u8 = 5;

pub(crate) const DESCEND: u8 = 6;

pub(crate) fn point(x: i32, y: i32, z: i32) -> Point
    ensures { result ≡ located x y z }
{
    Point { x, y, z }
}

// The step along an axis.
fn step(up: u8, down: u8, a: u8) -> i32
    ensures value { result ≡ stepped up down a }
    ensures bound { unsigned_abs result ≤ 1 }
{
    if a == up {
        1
    } else if a == down {
        -1
    } else {
        0
    }
}

// The coordinate after a step and a gust's push along its axis.
fn shifted(c: i32, step: i32, third: u8) -> i32
    requires { (unsigned_abs c ≤ 1000) × (unsigned_abs step ≤ 1) × (third < 3) }
    ensures { result ≡ ((c +ℤ step) +ℤ push third) }
{
    c + step + (i32::from(third) - 1)
}

impl DroneState {
    // The cell with these coordinates, each held within its range.
    fn held(x: i32, y: i32, z: u16) -> DroneState
        ensures { result ≡ cell_at x y z }
    {
        DroneState {
            x: x.clamp(-MAX_XY, MAX_XY),
            y: y.clamp(-MAX_XY, MAX_XY),
            z: z.min(MAX_Z),
        }
    }

    fn climbed(self, a: u8) -> u16
        ensures { result ≡ risen a self.z }
    {
        match a {
            CLIMB => self.z + 1,
            DESCEND => self.z.saturating_sub(1),
            _ => self.z,
        }
    }

    // Above the ground, the gust pushes in every action.
    fn flown(self, a: u8, w: u8) -> DroneState
        requires { w < 9 }
        ensures { result ≡ blown self a w }
    {
        let x = shifted(self.x, step(X_UP, X_DOWN, a), w / 3);
        let y = shifted(self.y, step(Y_UP, Y_DOWN, a), w % 3);
        DroneState::held(x, y, self.climbed(a))
    }

    // On the ground, only the climb moves, straight up.
    fn lifted(self, a: u8) -> DroneState
        ensures { result ≡ raised self a }
    {
        if a == CLIMB {
            DroneState::held(self.x, self.y, 1)
        } else {
            self
        }
    }

    pub(crate) fn after(self, a: u8, w: u8) -> DroneState
        ensures { result ≡ next self a w }
    {
        if a < ACTIONS && w < GUSTS {
            if self.z == 0 {
                self.lifted(a)
            } else {
                self.flown(a, w)
            }
        } else {
            self
        }
    }

    pub(crate) fn draw(self, a: u8) -> u16
        ensures { result ≡ drawn self a }
    {
        match a {
            HOVER => 2,
            X_UP | X_DOWN | Y_UP | Y_DOWN => 3,
            CLIMB => 4,
            DESCEND if self.z > 0 => 2,
            _ => 0,
        }
    }

    pub(crate) fn place(self) -> Point
        ensures { result ≡ placed self }
    {
        point(self.x, self.y, i32::from(self.z))
    }

    // The point as far from the cell along x and along y as `reach`, at the height z.
    fn corner(self, reach: i32, z: i32) -> Point
        requires { unsigned_abs reach ≤ 1000 }
        ensures { result ≡ located (self.x +ℤ reach) (self.y +ℤ reach) z }
    {
        point(self.x + reach, self.y + reach, z)
    }

    // From the cell down to the ground, and as far to each side as down.
    pub(crate) fn cover(self) -> Region
        ensures { result ≡ covered self }
    {
        let z = i32::from(self.z);
        Region {
            low: self.corner(-z, 0),
            high: self.corner(z, z),
        }
    }

    pub(crate) fn z(self) -> u16
        ensures { result ≡ self.z }
    {
        self.z
    }
}

impl From<DroneState> for (i32, i32, i32) {
    ghost from_gives = { λ s n. n ≡ named s };

    fn from(s: DroneState) -> (i32, i32, i32) {
        (s.x, s.y, i32::from(s.z))
    }
}

impl TryFrom<(i32, i32, i32)> for DroneState {
    type Error = StateRefusal;

    ghost try_from_gives = { λ n r. r ≡ ok_or (made n) NoSuchState };

    fn try_from(n: (i32, i32, i32)) -> Result<DroneState, StateRefusal> {
        let (x, y, z) = n;
        match u16::try_from(z) {
            Ok(z)
                if x.unsigned_abs() <= MAX_XY.unsigned_abs()
                    && y.unsigned_abs() <= MAX_XY.unsigned_abs()
                    && z <= MAX_Z => { Ok(DroneState::held(x, y, z)) }
            _ => Err(StateRefusal::NoSuchState),
        }
    }
}
