#![tactic(auto)]

ghost use Rattle.std.specs.Prelude.{pos, ◌≤ℤ◌};

mod distances;
pub mod guarding;
pub mod state;

// A cart on a rail that runs from 0 to its length, which is from 1 to 100,000.
#[derive(Clone, Copy, Debug, PartialEq, Eq)]
pub struct Cart {
    length: i32,
    ghost long: { pos 1 ≤ℤ length },
    ghost short: { length ≤ℤ pos 100000 },
}
