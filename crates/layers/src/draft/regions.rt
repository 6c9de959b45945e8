ghost use Rattle.std.specs.Prelude.{◌≡◌, [], OnErr};
ghost use Rattle.layers.specs.Drafts.{keep_outs, drafted, answer, added, TakesUpright};
ghost use Rattle.layers.specs.Fence.{outside, clear};

use super::Draft;
use super::keep_out::KeepOut;
use super::refusal::DraftRefusal;
use guard::geometry::{Point, Region};

impl TryFrom<Region> for KeepOut {
    type Error = DraftRefusal;

    ghost try_from_gives = { TakesUpright };

    fn try_from(region: Region) -> Result<Self, DraftRefusal> {
        let Region { low, high } = region;
        if low.x <= high.x && low.y <= high.y && low.z <= high.z {
            Ok(KeepOut { region })
        } else {
            Err(DraftRefusal::Inverted)
        }
    }
}

// An empty place of a draft has the point 0.
impl Default for KeepOut {
    fn default() -> Self {
        let zero = Point { x: 0, y: 0, z: 0 };
        KeepOut {
            region: Region {
                low: zero,
                high: zero,
            },
        }
    }
}

impl Draft {
    // A draft with no regions.
    pub fn new() -> Draft
        ensures { drafted result ≡ [] }
    {
        Draft {
            regions: [KeepOut::default(); 16],
            count: 0,
        }
    }

    // Adds a region after the others.
    pub fn add(&mut self, region: Region) -> Result<(), DraftRefusal>
        ensures value { result ≡ answer (drafted self.old) region }
        ensures after { drafted self.new ≡ added (drafted self.old) region }
        ensures unaltered { OnErr result (self.new ≡ self.old) }
    {
        let region = KeepOut::try_from(region)?;
        if self.count == self.regions.len() {
            return Err(DraftRefusal::Full);
        }
        self.regions[self.count] = region;
        self.count += 1;
        Ok(())
    }

    // The regions that were added.
    fn taken(&self) -> &[KeepOut]
        ensures { result.now ≡ keep_outs self.now }
    {
        &self.regions[..self.count]
    }

    // Whether the point lies in none of the regions.
    pub(crate) fn excludes(&self, p: Point) -> bool
        ensures { result ≡ outside (drafted self.now) p }
    {
        self.taken().iter().all(|k| !k.region.holds(p))
    }

    // Whether the region touches none of the regions.
    pub(crate) fn clears(&self, c: &Region) -> bool
        ensures { result ≡ clear (drafted self.now) c.now }
    {
        self.taken().iter().all(|k| !k.region.touches(c))
    }
}
