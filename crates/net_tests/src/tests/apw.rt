// Expected values are worked out by hand: a tick is 1/128 s, a metre 512 units, and 25 ft are 30,720.
ghost use Rattle.std.specs.Prelude.{◌≤ℤ◌, All, IfSome, IsTrue, pos};
ghost use Rattle.site_types.specs.Limits.{IsPair};
ghost use Rattle.site_types.specs.Ranges.{AreTimes, IsPolygon, IsSet, IsVolume};
ghost use Rattle.track_motion.specs.Motions.{InRange};
ghost use Rattle.site_types.specs.declared.ranges.TheConstants.{ACTIVE_TIMES, POINTS};

use super::sets::{SITE, expect_set};
use airspace_volumes::{Bounds, NoMemory, active, apw};
use site_types::{Pairs, Set, Volume};
use std::alloc::Global;
use std::process::Abort;
use std::test::Fail;
use tick_sets::TickHit;
use track_motion::Motion;

/// 10,000 ft and 20,000 ft.
const FLOOR: i64 = 12_288_000;

const CEILING: i64 = 24_576_000;

/// 1,000 m wide and high, from (0, 0) on.
const SQUARE: [(i64, i64); 4] = [(0, 0), (512_000, 0), (512_000, 512_000), (0, 512_000)];

/// 3,000 m wide and 1,000 m high, with a notch 1,000 m wide from 200 m up.
const NOTCHED: [(i64, i64); 8] = [
    (0, 0),
    (1_536_000, 0),
    (1_536_000, 512_000),
    (1_024_000, 512_000),
    (1_024_000, 102_400),
    (512_000, 102_400),
    (512_000, 512_000),
    (0, 512_000),
];

/// 1,000 m to the left of the polygon on its way to it, at 250 m/s and 15,000 ft. Its altitude is far below.
const ENTERING: Motion = Motion {
    x: -512_000,
    y: 256_000,
    vx: 1_000,
    vy: 0,
    z: 18_432_000,
    alt: 0,
    vz: 0,
};

/// Always.
const ALWAYS: Option<&[(i64, i64)]> = None;

fn volume(
    alloc: Global,
    points: &[(i64, i64)],
    times: Option<&[(i64, i64)]>,
) -> Result<Volume, NoMemory> {
    let active = match times {
        None => None,
        Some(times) => Some(Pairs::new(Vec::from_slice(alloc, times)?)),
    };
    Ok(Volume {
        floor: FLOOR,
        ceiling: CEILING,
        points: Pairs::new(Vec::from_slice(alloc, points)?),
        active,
    })
}

fn are_points(points: &[(i64, i64)]) -> bool
    ensures { IsTrue result → All (IsPair POINTS) points.now }
{
    points.iter().all(|point| -2_147_483_136 <= point.0
        && point.0 <= 2_147_483_136
        && -2_147_483_136 <= point.1
        && point.1 <= 2_147_483_136)
}

fn are_times(times: &[(i64, i64)]) -> bool
    ensures { IsTrue result → All (IsPair ACTIVE_TIMES) times.now }
{
    times.iter().all(|pair| 0 <= pair.0
        && pair.0 <= 11_059_200
        && 0 <= pair.1
        && pair.1 <= 11_059_200)
}

/// From 3 to 256 of them.
fn is_polygon(points: &[(i64, i64)]) -> bool
    ensures { IsTrue result → IsPolygon points.now }
{
    3 <= points.len() && points.len() <= 256 && are_points(points)
}

fn are_active(times: &Option<Pairs>) -> bool
    ensures { IsTrue result → IfSome times.now AreTimes }
{
    match times {
        None => true,
        Some(times) => times.as_slice().len() <= 48 && are_times(times.as_slice()),
    }
}

/// The hit of a motion that is in range by a volume whose values are, by a set whose values are.
fn examined(
    rt: &impl Abort,
    alloc: Global,
    m: Motion,
    v: &Volume,
    time: i64,
    set: Set,
) -> Result<Option<TickHit>, NoMemory> {
    assert!(rt; m.in_range());
    assert!(rt; is_polygon(v.points.as_slice()));
    assert!(rt; are_active(&v.active));
    // From 5,000 ft below to 100,000 ft.
    assert!(rt; -6_144_000 <= v.floor);
    assert!(rt; v.floor <= 122_880_000);
    assert!(rt; -6_144_000 <= v.ceiling);
    assert!(rt; v.ceiling <= 122_880_000);
    assert!(rt; 0 <= time);
    expect_set(rt, &set);
    once(alloc, m, v, time, set)
}

/// The same, of values in range.
fn once(
    alloc: Global,
    m: Motion,
    v: &Volume,
    time: i64,
    set: Set,
) -> Result<Option<TickHit>, NoMemory>
    requires motion { InRange m }
    requires volume { IsVolume v.now }
    requires time { pos 0 ≤ℤ time }
    requires set { IsSet set }
{
    apw(alloc, &m, v, time, &set)
}

fn expect_hits(
    rt: &impl Abort,
    alloc: Global,
    v: &Volume,
    rows: &[(Motion, Option<TickHit>)],
) -> Result<(), NoMemory> {
    for (m, want) in rows {
        let hit = examined(rt, alloc, *m, v, 0, SITE)?;
        assert_eq!(rt; hit, *want);
    }
    Ok(())
}

fn hit(first: i64, urgent: bool) -> Option<TickHit> {
    Some(TickHit { first, urgent })
}

/// Whether a volume with these times is active at a time.
fn is_active(
    rt: &impl Abort,
    alloc: Global,
    times: Option<&[(i64, i64)]>,
    time: i64,
) -> Result<bool, NoMemory> {
    let v = volume(alloc, &SQUARE, times)?;
    assert!(rt; 0 <= time);
    Ok(active(&v, time))
}

/// From 36,006 to 40,000 s.
const ONCE: [(i64, i64); 1] = [(4_608_768, 5_120_000)];

/// From 23:00 to 01:00, and at no time on from 12:00.
const OVER_MIDNIGHT: [(i64, i64); 2] = [(5_529_600, 5_529_600), (10_598_400, 460_800)];

const WHOLE_DAY: [(i64, i64); 1] = [(0, 11_059_200)];

#[test]
fn active_times(rt: HostRuntime) -> Result<(), Fail> {
    let rows: [(Option<&[(i64, i64)]>, i64, bool); 19] = [
        (ALWAYS, 0, true),
        (Some(&[]), 0, false),
        // At 36,004 s, at 36,006 s and before, at 36,008 s, and at 40,000 s and before.
        (Some(&ONCE), 4_608_512, false),
        (Some(&ONCE), 4_608_767, false),
        (Some(&ONCE), 4_608_768, true),
        (Some(&ONCE), 4_609_024, true),
        (Some(&ONCE), 5_119_999, true),
        (Some(&ONCE), 5_120_000, false),
        // The day after.
        (Some(&ONCE), 15_668_224, true),
        (Some(&OVER_MIDNIGHT), 10_598_399, false),
        (Some(&OVER_MIDNIGHT), 10_598_400, true),
        (Some(&OVER_MIDNIGHT), 11_059_199, true),
        (Some(&OVER_MIDNIGHT), 11_059_200, true),
        (Some(&OVER_MIDNIGHT), 0, true),
        (Some(&OVER_MIDNIGHT), 460_799, true),
        (Some(&OVER_MIDNIGHT), 460_800, false),
        (Some(&OVER_MIDNIGHT), 5_529_600, false),
        (Some(&WHOLE_DAY), 0, true),
        (Some(&WHOLE_DAY), 11_059_199, true),
    ];
    for (times, time, want) in &rows {
        let active = is_active(&rt, rt.alloc(), *times, *time)?;
        assert_eq!(rt; active, *want, "at {time}");
    }
    Ok(())
}

#[test]
fn volume_that_is_not_active(rt: HostRuntime) -> Result<(), Fail> {
    let v = volume(rt.alloc(), &SQUARE, Some(&ONCE))?;
    let before = examined(&rt, rt.alloc(), ENTERING, &v, 4_608_512, SITE)?;
    assert_eq!(rt; before, None);
    let then = examined(&rt, rt.alloc(), ENTERING, &v, 4_609_024, SITE)?;
    assert_eq!(rt; then, hit(512, true));
    Ok(())
}

#[test]
fn track_on_its_way_in(rt: HostRuntime) -> Result<(), Fail> {
    let v = volume(rt.alloc(), &SQUARE, ALWAYS)?;
    let from = |x| Motion { x, ..ENTERING };
    let rows = [
        (ENTERING, hit(512, true)),
        (from(0), hit(0, true)),
        // 20 s away, and a tick more.
        (from(-2_560_000), hit(2_560, true)),
        (from(-2_560_001), hit(2_561, false)),
        // 60 s away, and a unit more.
        (from(-7_680_000), hit(7_680, false)),
        (from(-7_680_001), None),
        // Past it.
        (from(512_000), None),
    ];
    expect_hits(&rt, rt.alloc(), &v, &rows)?;
    Ok(())
}

#[test]
fn floor_and_ceiling(rt: HostRuntime) -> Result<(), Fail> {
    let v = volume(rt.alloc(), &SQUARE, ALWAYS)?;
    let level = |z| Motion { z, ..ENTERING };
    let rows = [
        (level(FLOOR), hit(512, true)),
        (level(FLOOR - 1), None),
        (level(CEILING), hit(512, true)),
        (level(CEILING + 1), None),
        (
            Motion {
                alt: FLOOR,
                ..level(0)
            },
            None,
        ),
    ];
    expect_hits(&rt, rt.alloc(), &v, &rows)?;
    Ok(())
}

/// It is over the square from tick 512 to 1,023.
#[test]
fn climb_and_descent_through_a_volume(rt: HostRuntime) -> Result<(), Fail> {
    let v = volume(rt.alloc(), &SQUARE, ALWAYS)?;
    let moving = |z, vz| Motion { z, vz, ..ENTERING };
    let rows = [
        // At the floor at tick 600, at 1,023 and at 1,024.
        (moving(FLOOR - 60_000, 100), hit(600, true)),
        (moving(FLOOR - 102_300, 100), hit(1_023, true)),
        (moving(FLOOR - 102_400, 100), None),
        // Below the floor from tick 513 on, and from 512 on.
        (moving(FLOOR + 51_200, -100), hit(512, true)),
        (moving(FLOOR + 51_199, -100), None),
    ];
    expect_hits(&rt, rt.alloc(), &v, &rows)?;
    Ok(())
}

/// It is over the notched polygon from tick 512 to 1,023, and again from 1,536 to 2,047.
#[test]
fn enters_leaves_and_enters_again(rt: HostRuntime) -> Result<(), Fail> {
    let v = volume(rt.alloc(), &NOTCHED, ALWAYS)?;
    let climbing = |z| Motion {
        z,
        vz: 100,
        ..ENTERING
    };
    let rows = [
        (ENTERING, hit(512, true)),
        // At the floor at ticks 1,100 and 2,000.
        (climbing(FLOOR - 110_000), hit(1_536, true)),
        (climbing(FLOOR - 200_000), hit(2_000, true)),
        // In the notch.
        (
            Motion {
                x: 512_000,
                ..ENTERING
            },
            hit(512, true),
        ),
        (
            Motion {
                x: 512_000,
                vx: 0,
                ..ENTERING
            },
            None,
        ),
    ];
    expect_hits(&rt, rt.alloc(), &v, &rows)?;
    Ok(())
}

#[test]
fn passes_by_on_each_side(rt: HostRuntime) -> Result<(), Fail> {
    let bounds = Bounds {
        left: 0,
        right: 1_536_000,
        lower: 0,
        upper: 512_000,
    };
    assert_eq!(rt; Bounds::of(&NOTCHED), bounds);
    let v = volume(rt.alloc(), &NOTCHED, ALWAYS)?;
    let at = |x, y| Motion {
        x,
        y,
        vx: 0,
        ..ENTERING
    };
    let rows = [
        (at(-1, 256_000), None),
        (at(0, 256_000), hit(0, true)),
        (at(1_535_999, 256_000), hit(0, true)),
        (at(1_536_000, 256_000), None),
        (at(0, -1), None),
        (at(0, 0), hit(0, true)),
        (at(0, 511_999), hit(0, true)),
        (at(0, 512_000), None),
    ];
    expect_hits(&rt, rt.alloc(), &v, &rows)?;
    Ok(())
}

/// A call that is refused memory answers as before when it is made again; one that passes by takes none.
#[test]
fn want_of_memory(rt: HostRuntime) -> Result<(), Fail> {
    let v = match volume(rt.alloc(), &SQUARE, Some(&WHOLE_DAY)) {
        Ok(v) => v,
        Err(_) => volume(rt.alloc(), &SQUARE, Some(&WHOLE_DAY))?,
    };
    for _ in 0..3 {
        let found = match examined(&rt, rt.alloc(), ENTERING, &v, 0, SITE) {
            Ok(found) => found,
            Err(_) => examined(&rt, rt.alloc(), ENTERING, &v, 0, SITE)?,
        };
        assert_eq!(rt; found, hit(512, true));
    }
    Ok(())
}
