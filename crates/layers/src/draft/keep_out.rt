ghost use Rattle.std.specs.Prelude.{IsTrue};
ghost use Rattle.layers.specs.Upright.{upright as proper};

use guard::geometry::Region;

// A region that a draft can hold: no upper coordinate is below its lower one.
#[derive(Clone, Copy)]
pub(crate) struct KeepOut {
    pub(crate) region: Region,
    ghost upright: { IsTrue (proper region) },
}
