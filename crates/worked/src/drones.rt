use crate::given::{draws, recovers, region};
use drone::Drone;
use guard::Guard;
use guard::refusal::Refusal;
use std::process::Abort;
use std::test::Fail;

// An action, a gust, and the cell that follows (5, 10, 5).
const FLYING: [(u8, u8, [i32; 3]); 14] = [
    (0, 1, [4, 10, 5]),
    (0, 5, [5, 11, 5]),
    (1, 1, [5, 10, 5]),
    (1, 5, [6, 11, 5]),
    (2, 1, [3, 10, 5]),
    (2, 5, [4, 11, 5]),
    (3, 1, [4, 11, 5]),
    (3, 5, [5, 12, 5]),
    (4, 1, [4, 9, 5]),
    (4, 5, [5, 10, 5]),
    (5, 1, [4, 10, 6]),
    (5, 5, [5, 11, 6]),
    (6, 1, [4, 10, 4]),
    (6, 5, [5, 11, 4]),
];

// Every gust on a hovering drone at (5, 10, 5).
const CALM_AIR: [(u8, u8, [i32; 3]); 9] = [
    (0, 0, [4, 9, 5]),
    (0, 1, [4, 10, 5]),
    (0, 2, [4, 11, 5]),
    (0, 3, [5, 9, 5]),
    (0, 4, [5, 10, 5]),
    (0, 5, [5, 11, 5]),
    (0, 6, [6, 9, 5]),
    (0, 7, [6, 10, 5]),
    (0, 8, [6, 11, 5]),
];

// The cells that follow (1000, -1000, 1000), held within their ranges.
const AT_THE_TOP: [(u8, u8, [i32; 3]); 6] = [
    (1, 8, [1000, -999, 1000]),
    (2, 0, [998, -1000, 1000]),
    (3, 8, [1000, -998, 1000]),
    (4, 0, [999, -1000, 1000]),
    (5, 4, [1000, -1000, 1000]),
    (6, 6, [1000, -1000, 999]),
];

// The cells that follow (3, 4, 0).
const LANDED: [(u8, u8, [i32; 3]); 7] = [
    (0, 0, [3, 4, 0]),
    (1, 1, [3, 4, 0]),
    (2, 2, [3, 4, 0]),
    (3, 3, [3, 4, 0]),
    (4, 4, [3, 4, 0]),
    (5, 5, [3, 4, 1]),
    (6, 6, [3, 4, 0]),
];

fn follow(
    rt: &impl Abort,
    from: (i32, i32, i32),
    moves: &[(u8, u8, [i32; 3])],
) -> Result<(), Fail> {
    let drone = Drone::new(20, 20, 10)?;
    let s = drone.state(from)?;
    for (a, w, to) in moves {
        let (x, y, z) = drone.numbers(drone.after(s, *a, *w));
        assert_eq!(rt; [x, y, z], *to);
    }
    Ok(())
}

#[test]
fn moves(rt: HostRuntime) -> Result<(), Fail> {
    follow(&rt, (5, 10, 5), &FLYING)?;
    follow(&rt, (5, 10, 5), &CALM_AIR)?;
    follow(&rt, (1000, -1000, 1000), &AT_THE_TOP)?;
    follow(&rt, (3, 4, 0), &LANDED)?;
    // landing is still blown
    follow(&rt, (3, 4, 1), &[(6, 0, [2, 3, 0]), (6, 8, [4, 5, 0])])?;
    // an action or a gust out of range does nothing
    follow(&rt, (3, 4, 5), &[(7, 0, [3, 4, 5]), (0, 9, [3, 4, 5])])
}

#[test]
fn draws_and_ticks(rt: HostRuntime) -> Result<(), Fail> {
    let drone = Drone::new(20, 20, 10)?;
    let flying = drone.state((5, 10, 5))?;
    let landed = drone.state((5, 10, 0))?;
    let most = [
        (0, 2),
        (1, 3),
        (2, 3),
        (3, 3),
        (4, 3),
        (5, 4),
        (7, 0),
        (255, 0),
    ];
    draws(&rt, &drone, flying, &most);
    draws(&rt, &drone, landed, &most);
    assert_eq!(rt; (drone.draw(flying, 6), drone.draw(landed, 6)), (2, 0));
    assert_eq!(rt; (drone.ticks(flying), drone.ticks(landed)), (5, 0));
    assert_eq!(rt; (drone.fallback(flying), drone.fallback_draw()), (6, 2));
    assert_eq!(rt; (drone.action_count(), drone.gust_count()), (7, 9));
    Ok(())
}

#[test]
fn covers(rt: HostRuntime) -> Result<(), Fail> {
    let drone = Drone::new(20, 20, 10)?;
    let cover = drone.cover(drone.state((5, 10, 3))?);
    assert_eq!(rt; cover, region((2, 7, 0), (8, 13, 3)));
    assert!(rt; recovers(&drone, (5, 10, 5))? && !recovers(&drone, (4, 10, 5))?);
    assert!(rt; recovers(&drone, (15, 15, 5))? && !recovers(&drone, (15, 16, 5))?);
    assert!(rt; recovers(&drone, (10, 10, 10))? && !recovers(&drone, (10, 10, 11))?);
    assert!(rt; recovers(&drone, (20, 0, 0))? && !recovers(&drone, (21, 0, 0))?);
    Ok(())
}

#[test]
fn refusals(rt: HostRuntime) -> Result<(), Fail> {
    for (x, y, z) in [(0, 1, 1), (1, 64, 1), (1, 1, -1)] {
        assert!(rt; matches!(Drone::new(x, y, z), Err(e) if e.number() == 4));
    }
    Drone::new(63, 63, 63)?;
    let drone = Drone::new(1, 1, 1)?;
    for n in [(1001, 0, 0), (0, -1001, 0), (0, 0, -1), (0, 0, 1001)] {
        assert!(rt; matches!(drone.state(n), Err(e) if e.number() == 5));
    }
    Ok(())
}
