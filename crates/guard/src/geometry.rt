ghost use Rattle.std.specs.Prelude.{◌≡◌, ◌&&◌, Decides};
ghost use Rattle.guard.specs.Regions.{Inside, Within, Touching};
ghost use Rattle.guard.specs.Regions.{between as lies, larger, holds as held, encloses as enclosed, touches as touched};

// A point of whole coordinates.
#[derive(Clone, Copy, Debug, PartialEq, Eq)]
pub struct Point {
    pub x: i32,
    pub y: i32,
    pub z: i32,
}

// An axis-aligned box of whole coordinates, both ends included. One whose upper end is below its lower end has no points.
#[derive(Clone, Copy, Debug, PartialEq, Eq)]
pub struct Region {
    pub low: Point,
    pub high: Point,
}

#[tactic(auto, unfolding(crate::specs::Regions::between))]
fn between(low: i32, c: i32, high: i32) -> bool
    ensures { result ≡ lies low c high }
{
    low <= c && c <= high
}

impl Point {
    // The larger coordinate on each axis.
    fn max(self, other: Point) -> Point
        ensures { result ≡ larger self other }
    {
        Point {
            x: self.x.max(other.x),
            y: self.y.max(other.y),
            z: self.z.max(other.z),
        }
    }
}

impl Region {
    // Whether the point lies between the ends on each axis.
    fn spans(&self, p: Point) -> bool
        ensures { result ≡ held self.now p }
    {
        between(self.low.x, p.x, self.high.x)
            && between(self.low.y, p.y, self.high.y)
            && between(self.low.z, p.z, self.high.z)
    }

    // Whether the point lies in the region.
    pub fn holds(&self, p: Point) -> bool
        ensures value { result ≡ held self.now p }
        ensures means { Decides result (Inside p self.now) }
    {
        self.spans(p)
    }

    // Whether both corners of the other region lie in this one.
    fn holds_corners(&self, inner: &Region) -> bool
        ensures { result ≡ enclosed self.now inner.now }
    {
        self.holds(inner.low) && self.holds(inner.high)
    }

    // Whether the other region, by its corners, lies in this one. For a region that has points: whether all of them do.
    pub fn encloses(&self, inner: &Region) -> bool
        ensures value { result ≡ enclosed self.now inner.now }
        ensures means { Inside inner.now.low inner.now → Decides result (Within inner.now self.now) }
    {
        self.holds_corners(inner)
    }

    // Whether the first point that could lie in both regions does.
    fn meets(&self, other: &Region) -> bool
        ensures { result ≡ touched self.now other.now }
    {
        let first = self.low.max(other.low);
        self.holds(first) && other.holds(first)
    }

    // Whether some point lies in both regions.
    pub fn touches(&self, other: &Region) -> bool
        ensures value { result ≡ touched self.now other.now }
        ensures means { Decides result (Touching self.now other.now) }
    {
        self.meets(other)
    }
}
