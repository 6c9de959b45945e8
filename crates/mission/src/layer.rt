ghost use Rattle.std.specs.Prelude.{◌≡◌, ◌⊎◌, IfErr};
ghost use Rattle.mission.specs.Faults.{OfRegions, OfLayer};
ghost use Rattle.mission.specs.declared.fault.Why.TheVariants.{RegionForm, NotNumbers};

use crate::fault::Why;
use crate::words;
use guard::geometry::{Point, Region};
use layers::draft::Draft;

// A layer of a command, before it stands on a guard.
#[derive(Drop)]
pub enum Layer {
    Fence(Draft),
    Battery(u16),
}

// The region of a word such as `8,0,0,9,20,0`: the lower corner, then the upper.
fn region(word: &str) -> Result<Region, Why>
    ensures { IfErr result (λ e. (e ≡ RegionForm) ⊎ (e ≡ NotNumbers)) }
{
    let [x, y, z, to_x, to_y, to_z] = words::numbers::<6>(Why::RegionForm, word)?;
    Ok(Region {
        low: Point { x, y, z },
        high: Point {
            x: to_x,
            y: to_y,
            z: to_z,
        },
    })
}

// The draft of regions that are joined by `+`; an empty one of the empty word.
fn draft(word: &str) -> Result<Draft, Why>
    ensures { IfErr result OfRegions }
{
    let mut draft = Draft::new();
    if word.is_empty() {
        return Ok(draft);
    }
    for part in word.split('+') {
        draft.add(region(part)?)?;
    }
    Ok(draft)
}

impl Layer {
    // The layer of a word such as `fence:8,0,0,9,20,0` or `battery:10`.
    pub fn read(word: &str) -> Result<Layer, Why>
        ensures { IfErr result OfLayer }
    {
        match word.split_once(':') {
            Some(("fence", regions)) => Ok(Layer::Fence(draft(regions)?)),
            Some(("battery", reserve)) => Ok(Layer::Battery(words::parsed::<u16>(
                reserve,
                Why::NotReserve,
            )?)),
            _ => Err(Why::NoLayer),
        }
    }
}
