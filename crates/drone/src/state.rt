ghost use Rattle.std.specs.Prelude.{◌≤◌, unsigned_abs};

pub(crate) mod moves;

// The cell of a drone: x and y from −1,000 to 1,000, and the height z from 0 to 1,000.
#[derive(Clone, Copy, Debug, PartialEq, Eq)]
pub struct DroneState {
    x: i32,
    y: i32,
    z: u16,
    ghost near: { unsigned_abs x ≤ 1000 },
    ghost close: { unsigned_abs y ≤ 1000 },
    ghost low: { z ≤ 1000 },
}
