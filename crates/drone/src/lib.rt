#![tactic(auto)]

ghost use Rattle.std.specs.Prelude.{◌≡◌, true};
ghost use Rattle.drone.specs.HallSize.{fits};

pub mod guarding;
pub mod state;

// How far a hall runs from 0 along an axis, from 1 to 63.
#[derive(Clone, Copy, Debug, PartialEq, Eq)]
pub(crate) struct Side {
    length: i32,
    ghost fit: { fits length ≡ true },
}

// A drone in a hall with these sides.
#[derive(Clone, Copy, Debug, PartialEq, Eq)]
pub struct Drone {
    x: Side,
    y: Side,
    z: Side,
}
