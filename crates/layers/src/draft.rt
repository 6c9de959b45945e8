ghost use Rattle.std.specs.Prelude.{◌≡◌, ◌≤◌, length};

use keep_out::KeepOut;

mod keep_out;
pub mod refusal;
pub mod regions;

// The keep-out regions of a fence that is still open, at most 16. It can be added to until it is sealed, and not copied.
#[derive(Drop)]
pub struct Draft {
    // the first `count` of them were added; no vector of a ported crate, which would be trusted under this library
    regions: [KeepOut; 16],
    count: usize,
    ghost few: { count ≤ 16 },
    ghost room: { length regions ≡ 16 },
}
