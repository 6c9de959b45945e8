use crate::given::region;
use guard::geometry::Point;

#[test]
fn touching(rt: HostRuntime) {
    let cube = region((0, 0, 0), (10, 10, 10));
    assert!(rt; cube.touches(&region((10, 10, 10), (20, 20, 20))));
    assert!(rt; !cube.touches(&region((11, 0, 0), (20, 10, 10))));
    assert!(rt; !cube.touches(&region((0, -5, 0), (10, -1, 10))));
    assert!(rt; !cube.touches(&region((0, 0, 11), (10, 10, 11))));
    assert!(rt; cube.touches(&region((i32::MIN, 5, 5), (i32::MAX, 5, 5))));
    // a region whose upper end is below its lower end has no points
    let none = region((5, 5, 5), (6, 4, 6));
    assert!(rt; !cube.touches(&none) && !none.touches(&cube) && !none.touches(&none));
}

#[test]
fn lying_in(rt: HostRuntime) {
    let cube = region((0, 0, 0), (10, 10, 10));
    assert!(rt; cube.holds(Point { x: 0, y: 10, z: 5 }));
    assert!(rt; !cube.holds(Point { x: 0, y: 11, z: 5 }));
    assert!(rt; !cube.holds(Point { x: 0, y: 10, z: -1 }));
    assert!(rt; cube.encloses(&region((0, 0, 0), (10, 10, 10))));
    assert!(rt; !cube.encloses(&region((0, 0, 0), (10, 10, 11))));
    assert!(rt; !cube.encloses(&region((-1, 0, 0), (10, 10, 10))));
}
