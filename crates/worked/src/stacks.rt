use crate::given::{reading, region};
use cart::Cart;
use drone::Drone;
use guard::geometry::Region;
use guard::refusal::Refusal;
use guard::{Guard, rule};
use layers::battery::Battery;
use layers::draft::Draft;
use std::test::Fail;

fn draft_of(region: Region) -> Result<Draft, Fail> {
    let mut draft = Draft::new();
    draft.add(region)?;
    Ok(draft)
}

fn judged<G: Guard>(g: &G, n: (i32, i32, i32), charge: u16) -> Result<(bool, bool), Fail> {
    let r = reading(g, n, charge)?;
    Ok((g.safe(r), g.recoverable(r)))
}

#[test]
fn fences(rt: HostRuntime) -> Result<(), Fail> {
    let near = draft_of(region((8, 0, 0), (9, 20, 0)))?.seal(Drone::new(20, 20, 10)?);
    assert_eq!(rt; judged(&near, (5, 10, 5), 65535)?, (true, false));
    assert_eq!(rt; judged(&near, (8, 10, 0), 65535)?, (false, false));
    assert_eq!(rt; judged(&near, (8, 10, 1), 65535)?, (true, false));
    let far = draft_of(region((11, 0, 0), (12, 20, 0)))?.seal(Drone::new(20, 20, 10)?);
    assert_eq!(rt; judged(&far, (5, 10, 5), 65535)?, (true, true));
    // a fence on a fence
    let both = draft_of(region((8, 0, 0), (9, 20, 0)))?.seal(far);
    assert_eq!(rt; judged(&both, (5, 10, 5), 65535)?, (true, false));
    assert_eq!(rt; judged(&both, (5, 10, 2), 65535)?, (true, true));
    assert_eq!(rt; judged(&both, (12, 3, 0), 65535)?, (false, false));
    Ok(())
}

#[test]
fn batteries(rt: HostRuntime) -> Result<(), Fail> {
    let kept = Battery::new(Cart::new(1000)?, 10);
    assert_eq!(rt; judged(&kept, (900, 20, 0), 20)?, (true, true));
    assert_eq!(rt; judged(&kept, (900, 20, 0), 19)?, (true, false));
    assert_eq!(rt; judged(&kept, (900, 0, 0), 10)?, (true, true));
    assert_eq!(rt; judged(&kept, (900, 0, 0), 9)?, (false, false));
    assert!(rt; rule::admissible(&kept, reading(&kept, (900, 20, 0), 23)?, 1));
    assert!(rt; !rule::admissible(&kept, reading(&kept, (900, 20, 0), 22)?, 1));
    Ok(())
}

#[test]
fn stacks_in_both_orders(rt: HostRuntime) -> Result<(), Fail> {
    let wall = region((950, 0, 0), (960, 0, 0));
    let outer_fence = draft_of(wall)?.seal(Battery::new(Cart::new(1000)?, 10));
    let outer_battery = Battery::new(draft_of(wall)?.seal(Cart::new(1000)?), 10);
    // at speed 20 the cover reaches 90 ahead, and ten ticks of the brake draw 10
    for (x, v, charge, verdict) in [
        (859, 20, 20, (true, true)),
        (860, 20, 20, (true, false)),
        (859, 20, 19, (true, false)),
        (955, 0, 10, (false, false)),
        (859, 20, 9, (false, false)),
    ] {
        assert_eq!(rt; judged(&outer_fence, (x, v, 0), charge)?, verdict);
        assert_eq!(rt; judged(&outer_battery, (x, v, 0), charge)?, verdict);
    }
    Ok(())
}

#[test]
fn drafts(rt: HostRuntime) -> Result<(), Fail> {
    let mut draft = Draft::new();
    assert!(rt; matches!(draft.add(region((0, 0, 0), (-1, 0, 0))), Err(e) if e.number() == 1));
    assert!(rt; matches!(draft.add(region((0, 0, 0), (0, 0, -1))), Err(e) if e.number() == 1));
    for x in 0..16 {
        draft.add(region((x, 0, 0), (x, 0, 0)))?;
    }
    assert!(rt; matches!(draft.add(region((16, 0, 0), (16, 0, 0))), Err(e) if e.number() == 2));
    // the first refusal in the row is answered
    assert!(rt; matches!(draft.add(region((0, 5, 0), (0, 4, 0))), Err(e) if e.number() == 1));
    let fenced = draft.seal(Cart::new(1000)?);
    assert_eq!(rt; judged(&fenced, (0, 0, 0), 1)?, (false, false));
    assert_eq!(rt; judged(&fenced, (15, 0, 0), 1)?, (false, false));
    assert_eq!(rt; judged(&fenced, (16, 0, 0), 1)?, (true, true));
    Ok(())
}
