// Expected values are worked out by hand, from the drawing of each polygon.
ghost use Rattle.std.specs.Prelude.{IsTrue};
ghost use Rattle.polygon_plan.specs.Ranges.{AreAhead, ArePoints};

use polygon_plan::{NoMemory, inside, inside_ticks};
use std::alloc::Global;
use std::process::Abort;
use std::test::Fail;
use tick_sets::Ticks;
use track_motion::Motion;
use track_motion::motion::FARTHEST;

/// The greatest coordinate of a point, and the greatest speed along an axis.
const FAR: i64 = 0x1_0000_0000;

const FAST: i64 = 0x8000;

/// 1,000 m wide and high, from (0, 0) on.
const SQUARE: [(i64, i64); 4] = [(0, 0), (512_000, 0), (512_000, 512_000), (0, 512_000)];

const SQUARE_THE_OTHER_WAY: [(i64, i64); 4] = [
    (0, 512_000),
    (512_000, 512_000),
    (512_000, 0),
    (0, 0),
];

const SQUARE_FROM_ANOTHER_POINT: [(i64, i64); 4] = [
    (512_000, 512_000),
    (0, 512_000),
    (0, 0),
    (512_000, 0),
];

/// The greatest square.
const WORLD: [(i64, i64); 4] = [(-FAR, -FAR), (FAR, -FAR), (FAR, FAR), (-FAR, FAR)];

/// Half of it: to the left of the line from its lower left corner to its upper right one.
const HALF_WORLD: [(i64, i64); 3] = [(-FAR, -FAR), (FAR, FAR), (-FAR, FAR)];

/// Below and to the left of a line from (1000, 0) to (0, 1000).
const TRIANGLE: [(i64, i64); 3] = [(0, 0), (1_000, 0), (0, 1_000)];

/// The whole look-ahead.
const ALL: Ticks = Ticks::Span {
    first: 0,
    last: 65_535,
};

const REST: Motion = Motion {
    x: 0,
    y: 0,
    vx: 0,
    vy: 0,
    z: 0,
    alt: 0,
    vz: 0,
};

/// 1,000 m to the left of the square, on its way to it.
const ENTERING: Motion = Motion {
    x: -512_000,
    y: 256_000,
    vx: 1_000,
    ..REST
};

fn ticks(first: i64, last: i64) -> Ticks {
    Ticks::Span { first, last }
}

fn are_points(points: &[(i64, i64)]) -> bool
    ensures { IsTrue result → ArePoints points.now }
{
    points.iter().all(|point| point.0.unsigned_abs() <= FARTHEST
        && point.1.unsigned_abs() <= FARTHEST)
}

fn are_ahead(within: Ticks) -> bool
    ensures { IsTrue result → AreAhead within }
{
    match within {
        Ticks::Empty => true,
        Ticks::Span { first, last } => last < first || (0 <= first && last <= 65_535),
    }
}

/// Whether a place is inside a polygon whose points are in range.
fn is_inside(rt: &impl Abort, points: &[(i64, i64)], x: i64, y: i64) -> bool {
    assert!(rt; are_points(points));
    inside(points, x, y)
}

fn expect_inside(rt: &impl Abort, points: &[(i64, i64)], rows: &[(i64, i64, bool)]) {
    for (x, y, want) in rows {
        assert_eq!(rt; is_inside(rt, points, *x, *y), *want, "at {x} {y}");
    }
}

/// The first tick inside, of a motion in range.
fn first_inside(
    rt: &impl Abort,
    alloc: Global,
    points: &[(i64, i64)],
    m: Motion,
    within: Ticks,
) -> Result<Option<i64>, NoMemory> {
    assert!(rt; are_points(points));
    assert!(rt; m.in_range());
    assert!(rt; are_ahead(within));
    inside_ticks(alloc, points, &m, within)
}

/// Its left and its lower border are inside, and its right and its upper one are not.
fn expect_square(rt: &impl Abort, points: &[(i64, i64)]) {
    let rows = [
        (0, 0, true),
        (256_000, 0, true),
        (0, 256_000, true),
        (256_000, 256_000, true),
        (511_999, 511_999, true),
        (512_000, 0, false),
        (512_000, 256_000, false),
        (256_000, 512_000, false),
        (0, 512_000, false),
        (512_000, 512_000, false),
        (-1, 256_000, false),
        (256_000, -1, false),
    ];
    expect_inside(rt, points, &rows);
}

#[test]
fn borders_of_a_square(rt: HostRuntime) {
    expect_square(&rt, &SQUARE);
}

#[test]
fn square_the_other_way_round(rt: HostRuntime) {
    expect_square(&rt, &SQUARE_THE_OTHER_WAY);
}

#[test]
fn square_from_another_first_point(rt: HostRuntime) {
    expect_square(&rt, &SQUARE_FROM_ANOTHER_POINT);
}

#[test]
fn square_with_equal_points(rt: HostRuntime) {
    let points = [
        SQUARE[0], SQUARE[0], SQUARE[1], SQUARE[2], SQUARE[2], SQUARE[2], SQUARE[3],
    ];
    expect_square(&rt, &points);
    expect_inside(
        &rt,
        &[(5, 5), (5, 5), (5, 5)],
        &[(5, 5, false), (4, 5, false)],
    );
}

#[test]
fn level_edge_and_corner_at_the_height_of_the_place(rt: HostRuntime) {
    let step = [(0, 0), (10, 0), (10, 5), (5, 5), (5, 10), (0, 10)];
    let rows = [(2, 5, true), (7, 5, false), (7, 4, true), (-1, 5, false)];
    expect_inside(&rt, &step, &rows);
    // The corner to the right is one end of two edges, and counts once.
    let wedge = [(0, 0), (10, 5), (0, 10)];
    expect_inside(&rt, &wedge, &[(2, 5, true), (-1, 5, false)]);
    // A corner above, and one below, count twice or not at all.
    let peaks = [(0, 0), (10, 0), (20, 5), (30, 0), (40, 5), (40, 9), (0, 9)];
    expect_inside(&rt, &peaks, &[(1, 5, true), (1, 0, true), (-1, 0, false)]);
}

#[test]
fn star_that_crosses_itself(rt: HostRuntime) {
    let star = [(0, 100), (59, -81), (-95, 31), (95, 31), (-59, -81)];
    let rows = [
        (0, 0, false),
        (0, 70, true),
        (-70, 20, true),
        (70, 80, false),
    ];
    expect_inside(&rt, &star, &rows);
}

#[test]
fn no_points_one_and_two(rt: HostRuntime) -> Result<(), Fail> {
    expect_inside(&rt, &[], &[(0, 0, false)]);
    expect_inside(&rt, &[(0, 0)], &[(0, 0, false), (-1, 0, false)]);
    expect_inside(
        &rt,
        &[(0, 0), (4, 8)],
        &[(0, 0, false), (2, 4, false), (-1, 4, false)],
    );
    assert_eq!(rt; first_inside(&rt, rt.alloc(), &[], REST, ALL)?, None);
    Ok(())
}

#[test]
fn entry_at_512(rt: HostRuntime) -> Result<(), Fail> {
    let rows = [
        (ticks(0, 7_680), Some(512)),
        (ticks(0, 512), Some(512)),
        (ticks(0, 511), None),
        (ticks(512, 512), Some(512)),
        (ticks(600, 7_680), Some(600)),
        (ticks(1_023, 7_680), Some(1_023)),
        (ticks(1_024, 65_535), None),
        (Ticks::Empty, None),
        (ticks(600, 599), None),
        (ticks(70_000, -1), None),
    ];
    for (within, want) in rows {
        let first = first_inside(&rt, rt.alloc(), &SQUARE, ENTERING, within)?;
        assert_eq!(rt; first, want, "in {within:?}");
    }
    Ok(())
}

/// On to the square from each side, along its borders, and at rest in it.
#[test]
fn ways_into_the_square(rt: HostRuntime) -> Result<(), Fail> {
    let at = |x, y, vx, vy| Motion {
        x,
        y,
        vx,
        vy,
        ..REST
    };
    let rows = [
        (at(1_024_000, 256_000, -1_000, 0), Some(513)),
        (at(256_000, -512_000, 0, 1_000), Some(512)),
        (at(256_000, 1_024_000, 0, -1_000), Some(513)),
        (at(-512_000, -512_000, 1_000, 1_000), Some(512)),
        (at(1_024_000, 1_024_000, -1_000, -1_000), Some(513)),
        (at(-512_000, 0, 1_000, 0), Some(512)),
        (at(-512_000, 512_000, 1_000, 0), None),
        (at(0, -512_000, 0, 1_000), Some(512)),
        (at(512_000, -512_000, 0, 1_000), None),
        (at(-1_000, 256_000, -1_000, 0), None),
        (at(256_000, 256_000, 0, 0), Some(0)),
    ];
    for (m, want) in rows {
        assert_eq!(rt;
            first_inside(&rt, rt.alloc(), &SQUARE, m, ALL)?,
            want,
            "of {m:?}"
        );
    }
    Ok(())
}

/// 7 units a tick along each axis: in at 504 of 500 to go, and over the slanted edge at 1,001 of 1,000.
#[test]
fn over_a_slanted_edge(rt: HostRuntime) -> Result<(), Fail> {
    let at = |place, speed| Motion {
        x: place,
        y: place,
        vx: speed,
        vy: speed,
        ..REST
    };
    let rows = [
        (at(-500, 7), ALL, Some(72)),
        (at(-500, 7), ticks(142, 7_680), Some(142)),
        (at(-500, 7), ticks(143, 7_680), None),
        (at(1_500, -7), ALL, Some(143)),
        // At tick 100 it is on the edge.
        (at(1_000, -5), ALL, Some(101)),
    ];
    for (m, within, want) in rows {
        assert_eq!(rt;
            first_inside(&rt, rt.alloc(), &TRIANGLE, m, within)?,
            want,
            "of {m:?}"
        );
    }
    Ok(())
}

/// A comb of 64 teeth, each 10 wide and 100 high, with 10 between two.
fn comb() -> [(i64, i64); 256] {
    let mut points = [(0, 0); 256];
    for tooth in 0..64 {
        let left = 20 * tooth as i64;
        points[4 * tooth] = (left, 0);
        points[4 * tooth + 1] = (left, 100);
        points[4 * tooth + 2] = (left + 10, 100);
        points[4 * tooth + 3] = (left + 10, 0);
    }
    points
}

/// It is inside at ticks 10 to 19, 30 to 39 and so on, and at last at 1,270 to 1,279.
#[test]
fn enters_a_comb_of_256_points_again(rt: HostRuntime) -> Result<(), Fail> {
    let points = comb();
    let m = Motion {
        x: -10,
        y: 50,
        vx: 1,
        ..REST
    };
    let rows = [
        (ALL, Some(10)),
        (ticks(19, 7_680), Some(19)),
        (ticks(20, 7_680), Some(30)),
        (ticks(20, 29), None),
        (ticks(1_260, 65_535), Some(1_270)),
        (ticks(1_279, 65_535), Some(1_279)),
        (ticks(1_280, 65_535), None),
    ];
    for (within, want) in rows {
        assert_eq!(rt;
            first_inside(&rt, rt.alloc(), &points, m, within)?,
            want,
            "in {within:?}"
        );
    }
    let places = [
        (5, 50, true),
        (15, 50, false),
        (1_269, 0, true),
        (1_270, 50, false),
    ];
    expect_inside(&rt, &points, &places);
    Ok(())
}

#[test]
fn ends_of_the_ranges(rt: HostRuntime) -> Result<(), Fail> {
    let at = |x, y, vx, vy| Motion {
        x,
        y,
        vx,
        vy,
        ..REST
    };
    let rows = [
        (at(FAR, 0, -FAST, 0), ALL, Some(1)),
        (at(FAR, FAR, -FAST, -FAST), ALL, Some(1)),
        (at(-FAR, -FAR, -FAST, -FAST), ALL, Some(0)),
        (at(-FAR, -FAR, -FAST, -FAST), ticks(1, 65_535), None),
        (
            at(-FAR, -FAR, FAST, FAST),
            ticks(65_535, 65_535),
            Some(65_535),
        ),
        (at(FAR, -FAR, FAST, FAST), ALL, None),
    ];
    for (m, within, want) in rows {
        assert_eq!(rt;
            first_inside(&rt, rt.alloc(), &WORLD, m, within)?,
            want,
            "of {m:?}"
        );
    }
    // At the last tick on the slanted edge, and one unit to the left of it.
    let half = 0x8000_0000;
    let rows = [
        (at(half - 65_536, -half, -FAST, FAST), None),
        (at(half - 65_537, -half, -FAST, FAST), Some(65_535)),
    ];
    for (m, want) in rows {
        assert_eq!(rt;
            first_inside(&rt, rt.alloc(), &HALF_WORLD, m, ALL)?,
            want,
            "of {m:?}"
        );
    }
    let places = [
        (-FAR, -FAR, true),
        (FAR - 1, FAR - 1, true),
        (2 * FAR, 0, false),
        (-2 * FAR, 0, false),
        (0, 2 * FAR, false),
        (0, -2 * FAR, false),
        // Nothing is too far off to be asked of.
        (i64::MAX, 0, false),
        (i64::MIN, 0, false),
        (i64::MIN, FAR - 1, false),
        (0, i64::MAX, false),
        (0, i64::MIN, false),
        (i64::MIN, i64::MAX, false),
    ];
    expect_inside(&rt, &WORLD, &places);
    expect_inside(&rt, &HALF_WORLD, &places[6..]);
    Ok(())
}

/// A call that is refused memory answers as before when it is made again; one with no tick takes none.
#[test]
fn want_of_memory(rt: HostRuntime) -> Result<(), Fail> {
    for _ in 0..3 {
        let first = match first_inside(&rt, rt.alloc(), &SQUARE, ENTERING, ALL) {
            Ok(first) => first,
            Err(_) => first_inside(&rt, rt.alloc(), &SQUARE, ENTERING, ALL)?,
        };
        assert_eq!(rt; first, Some(512));
    }
    let first = first_inside(&rt, rt.alloc(), &SQUARE, ENTERING, Ticks::Empty)?;
    assert_eq!(rt; first, None);
    Ok(())
}
