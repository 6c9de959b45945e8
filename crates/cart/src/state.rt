ghost use Rattle.std.specs.Prelude.{◌≤◌, unsigned_abs};

pub(crate) mod moves;

// Where a cart is on its axis, from −1,000,000 to 1,000,000, and how far it moves in a tick, from −40 to 40.
#[derive(Clone, Copy, Debug, PartialEq, Eq)]
pub struct CartState {
    x: i32,
    v: i32,
    ghost near: { unsigned_abs x ≤ 1000000 },
    ghost slow: { unsigned_abs v ≤ 40 },
}
