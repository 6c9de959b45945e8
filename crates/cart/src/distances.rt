ghost use Rattle.std.specs.Prelude.{◌≡◌, ◌≤◌, map};
ghost use Rattle.std.specs.List.{range_with_len};
ghost use Rattle.cart.specs.BrakingDistance.{distance};

// The braking distances for the speed sizes 0 to 40.
#[derive(Clone, Copy)]
pub(crate) struct Distances {
    entries: [u32; 41],
    ghost rule: { entries ≡ map distance (range_with_len 0 41) },
}

pub(crate) const DISTANCES: Distances = Distances {
    entries: [
        0, 0, 0, 1, 2, 4, 6, 9, 12, 16, 20, 25, 30, 36, 42, 49, 56, 64, 72, 81, 90, 100, 110, 121,
        132, 144, 156, 169, 182, 196, 210, 225, 240, 256, 272, 289, 306, 324, 342, 361, 380,
    ],
};

impl Distances {
    pub(crate) fn at(&self, u: usize) -> u32
        requires { u ≤ 40 }
        ensures value { result ≡ distance u }
        ensures bound { result ≤ 380 }
    {
        self.entries[u]
    }
}
