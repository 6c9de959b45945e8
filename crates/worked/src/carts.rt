use crate::given::{draws, recovers, region};
use cart::Cart;
use guard::Guard;
use guard::refusal::Refusal;
use std::process::Abort;
use std::test::Fail;

// A speed, an action, and the speeds that follow under the gusts 0, 1 and 2.
const SPEEDS: [(i32, u8, [i32; 3]); 40] = [
    (0, 0, [-4, -3, -2]),
    (0, 1, [-3, -2, -1]),
    (0, 2, [-2, -1, 0]),
    (0, 3, [-1, 0, 1]),
    (0, 4, [0, 1, 2]),
    (0, 5, [1, 2, 3]),
    (0, 6, [2, 3, 4]),
    (0, 7, [0, 0, 0]),
    (1, 0, [-3, -2, -1]),
    (1, 1, [-2, -1, 0]),
    (1, 2, [-1, 0, 1]),
    (1, 3, [0, 1, 2]),
    (1, 4, [1, 2, 3]),
    (1, 5, [2, 3, 4]),
    (1, 6, [3, 4, 5]),
    (1, 7, [0, 0, 0]),
    (-1, 0, [-5, -4, -3]),
    (-1, 1, [-4, -3, -2]),
    (-1, 2, [-3, -2, -1]),
    (-1, 3, [-2, -1, 0]),
    (-1, 4, [-1, 0, 1]),
    (-1, 5, [0, 1, 2]),
    (-1, 6, [1, 2, 3]),
    (-1, 7, [0, 0, 0]),
    (40, 0, [36, 37, 38]),
    (40, 1, [37, 38, 39]),
    (40, 2, [38, 39, 40]),
    (40, 3, [39, 40, 40]),
    (40, 4, [40, 40, 40]),
    (40, 5, [40, 40, 40]),
    (40, 6, [40, 40, 40]),
    (40, 7, [38, 37, 36]),
    (-40, 0, [-40, -40, -40]),
    (-40, 1, [-40, -40, -40]),
    (-40, 2, [-40, -40, -40]),
    (-40, 3, [-40, -40, -39]),
    (-40, 4, [-40, -39, -38]),
    (-40, 5, [-39, -38, -37]),
    (-40, 6, [-38, -37, -36]),
    (-40, 7, [-38, -37, -36]),
];

fn moves(
    rt: &impl Abort,
    cart: &Cart,
    x: i32,
    v: i32,
    a: u8,
    w: u8,
    after: (i32, i32),
) -> Result<(), Fail> {
    let t = cart.after(cart.state((x, v, 0))?, a, w);
    assert_eq!(rt; cart.numbers(t), (after.0, after.1, 0));
    Ok(())
}

#[test]
fn speeds_and_places(rt: HostRuntime) -> Result<(), Fail> {
    let cart = Cart::new(1000)?;
    for (v, a, speeds) in SPEEDS {
        for (w, next) in (0u8..3).zip(speeds) {
            assert!(rt; -40 <= next && next <= 40);
            moves(&rt, &cart, 500, v, a, w, (500 + next, next))?;
            // at either end of the range the place is held
            moves(
                &rt,
                &cart,
                1_000_000,
                v,
                a,
                w,
                (1_000_000 + next.min(0), next),
            )?;
            moves(
                &rt,
                &cart,
                -1_000_000,
                v,
                a,
                w,
                (-1_000_000 + next.max(0), next),
            )?;
        }
    }
    Ok(())
}

#[test]
fn recoverable_edges(rt: HostRuntime) -> Result<(), Fail> {
    let cart = Cart::new(1000)?;
    assert!(rt; recovers(&cart, (910, 20, 0))?);
    assert!(rt; !recovers(&cart, (911, 20, 0))?);
    assert!(rt; recovers(&cart, (2, -4, 0))?);
    assert!(rt; !recovers(&cart, (1, -4, 0))?);
    assert!(rt; recovers(&cart, (0, 0, 0))? && recovers(&cart, (1000, 0, 0))?);
    assert!(rt; !recovers(&cart, (-1, 0, 0))? && !recovers(&cart, (1001, 0, 0))?);
    Ok(())
}

// A speed, and the ends of the cover at the place 500.
const COVERS: [(i32, i32, i32); 17] = [
    (0, 500, 500),
    (1, 500, 500),
    (-1, 500, 500),
    (2, 500, 500),
    (-2, 500, 500),
    (3, 500, 501),
    (-3, 499, 500),
    (4, 500, 502),
    (-4, 498, 500),
    (5, 500, 504),
    (-5, 496, 500),
    (20, 500, 590),
    (-20, 410, 500),
    (39, 500, 861),
    (-39, 139, 500),
    (40, 500, 880),
    (-40, 120, 500),
];

#[test]
fn covers(rt: HostRuntime) -> Result<(), Fail> {
    let cart = Cart::new(1000)?;
    for (v, low, high) in COVERS {
        let cover = cart.cover(cart.state((500, v, 0))?);
        assert_eq!(rt; cover, region((low, 0, 0), (high, 0, 0)));
    }
    Ok(())
}

#[test]
fn draws_and_ticks(rt: HostRuntime) -> Result<(), Fail> {
    let cart = Cart::new(1000)?;
    let rolling = cart.state((500, -5, 0))?;
    let resting = cart.state((500, 0, 0))?;
    let most = [
        (0, 4),
        (1, 3),
        (2, 2),
        (3, 1),
        (4, 2),
        (5, 3),
        (6, 4),
        (8, 0),
        (255, 0),
    ];
    draws(&rt, &cart, rolling, &most);
    draws(&rt, &cart, resting, &most);
    assert_eq!(rt; cart.draw(rolling, 7), 1);
    assert_eq!(rt; cart.draw(resting, 7), 0);
    assert_eq!(rt; (cart.ticks(rolling), cart.ticks(resting)), (3, 0));
    assert_eq!(rt; (cart.fallback(rolling), cart.fallback_draw()), (7, 1));
    Ok(())
}

#[test]
fn out_of_range_does_nothing(rt: HostRuntime) -> Result<(), Fail> {
    let cart = Cart::new(1000)?;
    assert_eq!(rt; (cart.action_count(), cart.gust_count()), (8, 3));
    moves(&rt, &cart, 500, 5, 8, 0, (500, 5))?;
    moves(&rt, &cart, 500, 5, 255, 1, (500, 5))?;
    moves(&rt, &cart, 500, 5, 7, 3, (500, 5))
}

#[test]
fn refusals(rt: HostRuntime) -> Result<(), Fail> {
    for length in [0, -1, 100_001, i32::MIN] {
        assert!(rt; matches!(Cart::new(length), Err(e) if e.number() == 3));
    }
    Cart::new(1)?;
    Cart::new(100_000)?;
    let cart = Cart::new(1000)?;
    for n in [
        (1_000_001, 0, 0),
        (i32::MIN, 0, 0),
        (0, 41, 0),
        (0, -41, 0),
        (0, 0, 1),
    ] {
        assert!(rt; matches!(cart.state(n), Err(e) if e.number() == 5));
    }
    Ok(())
}
