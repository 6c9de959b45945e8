use crate::given::reading;
use cart::Cart;
use guard::{Guard, rule};
use std::test::Fail;

#[test]
fn admissible_actions(rt: HostRuntime) -> Result<(), Fail> {
    let cart = Cart::new(1000)?;
    let r = reading(&cart, (900, 20, 0), 65535)?;
    for (a, gust) in [
        (0, None),
        (1, None),
        (2, Some(2)),
        (3, Some(1)),
        (4, Some(0)),
        (6, Some(0)),
        (7, None),
    ] {
        assert_eq!(rt; rule::endangering_gust(&cart, r, a), gust);
        assert_eq!(rt; rule::admissible(&cart, r, a), gust.is_none());
    }
    // a number that is no action changes nothing, and is not admissible
    assert_eq!(rt; rule::endangering_gust(&cart, r, 8), None);
    assert!(rt; !rule::admissible(&cart, r, 8));
    Ok(())
}

#[test]
fn calm_places(rt: HostRuntime) -> Result<(), Fail> {
    let cart = Cart::new(1000)?;
    for (x, v, calm) in [
        (994, 0, true),
        (995, 0, false),
        (6, 0, true),
        (5, 0, false),
        (-36, 40, true),
    ] {
        assert_eq!(rt; rule::calm(&cart, reading(&cart, (x, v, 0), 65535)?), calm);
    }
    Ok(())
}

#[test]
fn what_can_follow(rt: HostRuntime) -> Result<(), Fail> {
    let cart = Cart::new(1000)?;
    // action 6 accelerates by 3 and draws at most 4
    let r = reading(&cart, (500, 0, 0), 200)?;
    for (x, v, charge, follows) in [
        (504, 4, 196, true),
        (503, 3, 200, true),
        (502, 2, 198, true),
        (504, 4, 195, false),
        (504, 4, 201, false),
        (505, 5, 196, false),
        (504, 3, 196, false),
    ] {
        let t = reading(&cart, (x, v, 0), charge)?;
        assert_eq!(rt; rule::can_follow(&cart, r, 6, t), follows);
        assert!(rt; !rule::can_follow(&cart, r, 8, t));
    }
    // the lowest charge is 0
    let low = reading(&cart, (500, 0, 0), 3)?;
    assert!(rt;
        rule::charge_can_follow(&cart, low, 6, 0) && rule::charge_can_follow(&cart, low, 6, 3)
    );
    assert!(rt; !rule::charge_can_follow(&cart, low, 6, 4));
    Ok(())
}
