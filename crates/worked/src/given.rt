use guard::Guard;
use guard::geometry::{Point, Region};
use guard::reading::Reading;
use std::process::Abort;
use std::test::Fail;

// The region with these corners.
pub(crate) fn region(low: (i32, i32, i32), high: (i32, i32, i32)) -> Region {
    Region {
        low: Point {
            x: low.0,
            y: low.1,
            z: low.2,
        },
        high: Point {
            x: high.0,
            y: high.1,
            z: high.2,
        },
    }
}

// The reading of the state with these numbers.
pub(crate) fn reading<G: Guard>(
    g: &G,
    n: (i32, i32, i32),
    charge: u16,
) -> Result<Reading<G::State>, Fail> {
    let state = g.state(n)?;
    Ok(Reading { state, charge })
}

// Whether the state with these numbers is recoverable with the most charge.
pub(crate) fn recovers<G: Guard>(g: &G, n: (i32, i32, i32)) -> Result<bool, Fail> {
    Ok(g.recoverable(reading(g, n, 65535)?))
}

// Each of these actions draws at most so much at the state.
pub(crate) fn draws<G: Guard>(rt: &impl Abort, g: &G, s: G::State, most: &[(u8, u16)]) {
    for (a, most) in most {
        assert_eq!(rt; g.draw(s, *a), *most);
    }
}
