ghost use Rattle.std.specs.Prelude.{◌≡◌, slice_index};

use crate::machine::{Kind, Shown};
use guard::Guard;
use guard::fallback::fall_back;
use guard::reading::Reading;
use std::io;

// A recoverable reading is at rest by then, since ticks are at most 1,000 and fall with each tick of the fallback.
const MOST_TICKS: u16 = 1000;

// The gust of the tick with this number from 0; gust 0 after the list has run out.
fn gust_at(gusts: &[u8], tick: u16) -> u8
    ensures { result ≡ slice_index gusts.now tick }
{
    gusts.get(usize::from(tick)).copied().unwrap_or(0)
}

// Drives the machine by its fallback until it is at rest, and prints a line for each tick. Kind and guard stand apart, as at `Shown`.
pub fn brake<G: Guard>(
    rt: &HostRuntime,
    kind: Kind,
    g: &G,
    start: Reading<G::State>,
    gusts: &[u8],
) -> io::Result<()> {
    let from = Shown::new(kind, g, start);
    let charge = start.charge;
    let verdict = if g.recoverable(start) {
        "recoverable"
    } else {
        "not recoverable"
    };
    println!(rt; "{from}, charge {charge}: {verdict}")?;
    let mut r = start;
    let mut ticks = 0;
    for tick in 0..MOST_TICKS {
        if g.ticks(r.state) == 0 {
            break;
        }
        let action = g.fallback(r.state);
        r = fall_back(g, r, gust_at(gusts, tick));
        ticks = tick + 1;
        let to = Shown::new(kind, g, r);
        let charge = r.charge;
        println!(rt; "tick {ticks}: action {action}, {to}, charge {charge}")?;
    }
    let end = Shown::new(kind, g, r);
    let outcome = if g.ticks(r.state) == 0 {
        "at rest"
    } else {
        "not at rest"
    };
    println!(rt; "{outcome} after {ticks} ticks: {end}")
}
