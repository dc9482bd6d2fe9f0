// Expected values are worked out by hand: a tick is 1/128 s, a metre 512 units, and 25 ft are 30,720.
ghost use Rattle.std.specs.Prelude.{◌≡◌, ◌≤ℤ◌, All, IsTrue, pos};
ghost use Rattle.site_types.specs.Ranges.{IsFunnel, IsSet};
ghost use Rattle.track_motion.specs.Motions.{InRange};

use super::sets::{SITE, expect_set};
use approach_funnel::{Approach, FunnelHit, apm};
use site_types::{Funnel, Set};
use std::process::Abort;
use track_motion::Motion;

/// To the east, 20,000 m long, for tracks up to 5,000 ft that are within 1,000 m of the centre line at the threshold
/// and 1,000 m more each 10,000 m before it. They are to stay within 200 m and 500 m more, above 1,200 ft each
/// 10,000 m, and below 500 ft and 3,000 ft more.
const EAST: Funnel = Funnel {
    x: 0,
    y: 0,
    dx: 1,
    dy: 0,
    elevation: 0,
    reach: 20_000,
    ceiling: 6_144_000,
    capture_half: 1_000,
    capture_side: 1_000,
    half: 200,
    side: 500,
    low_base: 0,
    low_rise: 1_200,
    high_base: 500,
    high_rise: 3_000,
};

/// 10,000 m before the threshold on the centre line, at 70 m/s and 1,725 ft. Its level is far above the ceiling.
///
/// There the slopes are at 1,474,560 and 4,300,800 and fall by 80.64 and 201.6 a tick as the track comes in; the
/// sides are at 358,400 to the left and right and come nearer by 14.
const INBOUND: Motion = Motion {
    x: -5_120_000,
    y: 0,
    vx: 280,
    vy: 0,
    z: 40_000_000,
    alt: 2_119_680,
    vz: 0,
};

/// A hit with no flag, soon.
const HIT: FunnelHit = FunnelHit {
    first: 0,
    below: false,
    above: false,
    left: false,
    right: false,
    urgent: true,
};

fn below(first: i64, urgent: bool) -> Option<FunnelHit> {
    Some(FunnelHit {
        first,
        below: true,
        urgent,
        ..HIT
    })
}

fn above(first: i64, urgent: bool) -> Option<FunnelHit> {
    Some(FunnelHit {
        first,
        above: true,
        urgent,
        ..HIT
    })
}

fn left(first: i64, urgent: bool) -> Option<FunnelHit> {
    Some(FunnelHit {
        first,
        left: true,
        urgent,
        ..HIT
    })
}

fn right(first: i64, urgent: bool) -> Option<FunnelHit> {
    Some(FunnelHit {
        first,
        right: true,
        urgent,
        ..HIT
    })
}

/// Whether each number is from its low to its high end.
fn are_between(rows: &[(i64, i64, i64)]) -> bool
    ensures { IsTrue result → All (λ row. (row.1 ≤ℤ row.0) × (row.0 ≤ℤ row.2)) rows.now }
{
    rows.iter().all(|row| row.1 <= row.0 && row.0 <= row.2)
}

/// Whether a funnel's values are in range.
fn is_funnel(f: Funnel) -> bool
    ensures { IsTrue result → IsFunnel f }
{
    // Places are within 4,194,303 m, and the ceiling is from 2,000 ft below 0 to 60,000 ft.
    let rows = [
        (f.x, -2_147_483_136, 2_147_483_136),
        (f.y, -2_147_483_136, 2_147_483_136),
        (f.dx, -10_000, 10_000),
        (f.dy, -10_000, 10_000),
        (f.elevation, -2_000, 20_000),
        (f.reach, 1, 100_000),
        (f.ceiling, -2_457_600, 73_728_000),
        (f.capture_half, 0, 20_000),
        (f.capture_side, 0, 10_000),
        (f.half, 0, 20_000),
        (f.side, 0, 10_000),
        (f.low_base, -5_000, 5_000),
        (f.low_rise, 0, 20_000),
        (f.high_base, -5_000, 5_000),
        (f.high_rise, 0, 20_000),
    ];
    are_between(&rows) && is_directed(f.dx, f.dy)
}

/// Whether a vector has a direction.
fn is_directed(dx: i64, dy: i64) -> bool
    ensures { IsTrue result → dx ≡ pos 0 → ¬ (dy ≡ pos 0) }
{
    dx != 0 || dy != 0
}

/// The hit of a motion that is in range by a funnel whose values are, by a set whose values are.
fn examined(rt: &impl Abort, m: Motion, f: Funnel, set: Set) -> Option<FunnelHit> {
    assert!(rt; m.in_range());
    assert!(rt; is_funnel(f));
    expect_set(rt, &set);
    found(rt, m, f, set)
}

fn found(rt: &impl Abort, m: Motion, f: Funnel, set: Set) -> Option<FunnelHit>
    requires motion { InRange m }
    requires funnel { IsFunnel f }
    requires set { IsSet set }
{
    let approach = Approach::of(&f);
    assert!(rt; *approach.funnel() == f);
    apm(&m, &f, &set)
}

fn expect_hits(rt: &impl Abort, f: Funnel, rows: &[(Motion, Option<FunnelHit>)]) {
    for (m, want) in rows {
        assert_eq!(rt; examined(rt, *m, f, SITE), *want);
    }
}

#[test]
fn descent_below_the_lower_slope(rt: HostRuntime) {
    // 645,120 is less than 159.36 a tick from 4,049 on.
    let descending = Motion {
        vz: -240,
        ..INBOUND
    };
    let away = Motion {
        vx: -280,
        ..descending
    };
    let across = Motion {
        vx: 0,
        vy: 280,
        ..descending
    };
    let rows = [
        (descending, below(4_049, false)),
        (away, None),
        (across, None),
    ];
    expect_hits(&rt, EAST, &rows);
}

#[test]
fn level_flight_into_the_upper_slope(rt: HostRuntime) {
    let at = |alt| Motion { alt, ..INBOUND };
    let rows = [
        (INBOUND, None),
        (at(4_055_040), above(1_220, true)),
        // At 20 s, and a tick later.
        (at(3_784_705), above(2_560, true)),
        (at(3_784_704), above(2_561, false)),
        // At 60 s, and a tick later.
        (at(2_752_513), above(7_680, false)),
        (at(2_752_512), None),
    ];
    expect_hits(&rt, EAST, &rows);
}

#[test]
fn out_of_the_sides(rt: HostRuntime) {
    let beside = |y, vy| Motion { y, vy, ..INBOUND };
    let rows = [
        // The side comes to it, and it is outside.
        (beside(-358_400, 0), right(1, true)),
        (beside(358_400, 0), left(1, true)),
        (beside(-358_401, 0), right(0, true)),
        (beside(358_401, 0), left(0, true)),
        // 114 a tick to the side.
        (beside(0, -100), right(3_144, false)),
        (beside(0, 100), left(3_144, false)),
    ];
    expect_hits(&rt, EAST, &rows);
}

#[test]
fn flags_of_the_first_tick(rt: HostRuntime) {
    let descending = Motion {
        vy: -100,
        vz: -286,
        ..INBOUND
    };
    let at = |alt| Motion { alt, ..descending };
    let both = FunnelHit {
        first: 3_144,
        below: true,
        right: true,
        urgent: false,
        ..HIT
    };
    let high = Motion {
        y: 358_401,
        alt: 4_300_801,
        ..INBOUND
    };
    let above_and_left = FunnelHit {
        above: true,
        left: true,
        ..HIT
    };
    let rows = [
        // 205.36 a tick below the slope: at 3,144 where it is as far above, and a tick before and after.
        (at(2_120_060), Some(both)),
        (at(2_120_060 - 206), below(3_143, false)),
        (at(2_120_060 + 206), right(3_144, false)),
        (high, Some(above_and_left)),
    ];
    expect_hits(&rt, EAST, &rows);
}

/// With the direction (1, 2), which is 2 long when rounded down.
#[test]
fn direction_beside_the_axes(rt: HostRuntime) {
    let f = Funnel {
        x: 1_000,
        y: -2_000,
        dx: 1,
        dy: 2,
        ..EAST
    };
    let at = |x, y| Motion {
        x,
        y,
        vx: 60,
        vy: 120,
        alt: 400_000,
        vz: -100,
        ..INBOUND
    };
    let beyond = |m| Motion { alt: 0, ..m };
    let rows = [
        // 2,000,000 before it: 112,000 above the slope, and 56.8 less each tick.
        (at(-399_000, -802_000), below(1_972, true)),
        // 300,000 to the right and to the left of the line, and 4,800 within the side, which comes nearer by 15.
        (at(-279_000, -862_000), right(321, true)),
        (at(-519_000, -742_000), left(321, true)),
        // 20,480,000 before it, and one more.
        (beyond(at(-4_095_000, -8_194_000)), below(0, true)),
        (beyond(at(-4_095_001, -8_194_000)), None),
    ];
    expect_hits(&rt, f, &rows);
}

#[test]
fn ends_of_capture(rt: HostRuntime) {
    let at = |x| Motion {
        x,
        alt: 0,
        ..INBOUND
    };
    let beside = |y| Motion { y, ..INBOUND };
    let high = |alt| Motion { alt, ..INBOUND };
    let rows = [
        // 20,000 m before the threshold, and a unit more.
        (at(-10_240_000), below(0, true)),
        (at(-10_240_001), None),
        // A unit before the threshold, at it, and past it.
        (at(-1), below(0, true)),
        (at(0), None),
        (at(1), None),
        // 2,000 m beside the line, and a unit more.
        (beside(-1_024_000), right(0, true)),
        (beside(-1_024_001), None),
        (beside(1_024_000), left(0, true)),
        (beside(1_024_001), None),
        // 5,000 ft, and a unit more.
        (high(6_144_000), above(0, true)),
        (high(6_144_001), None),
    ];
    expect_hits(&rt, EAST, &rows);
}

/// It is 280 before the threshold at tick 99 and at it at 100.
#[test]
fn deviation_past_the_threshold(rt: HostRuntime) {
    let at = |alt| Motion {
        x: -28_000,
        alt,
        ..INBOUND
    };
    let rows = [
        (at(600_000), None),
        (at(614_601), None),
        (at(614_602), above(99, true)),
    ];
    expect_hits(&rt, EAST, &rows);
}

/// The lower slope begins at 200 ft: 245,760 and 0.288 of the distance.
#[test]
fn slope_over_the_elevation(rt: HostRuntime) {
    let f = Funnel {
        elevation: 300,
        low_base: -100,
        ..EAST
    };
    let at = |alt| Motion { alt, ..INBOUND };
    let rows = [(at(1_720_319), below(0, true)), (at(1_720_320), None)];
    expect_hits(&rt, f, &rows);
}

/// A track's distance, offset and altitude at a tick. Numbers are far below 2^63 here.
#[derive(Clone, Copy)]
struct Place {
    distance: i64,
    offset: i64,
    altitude: i64,
}

fn moved(start: i64, speed: i64, tick: i64) -> i64 {
    start.wrapping_add(speed.wrapping_mul(tick))
}

fn place_at(m: &Motion, f: &Funnel, tick: i64) -> Place {
    let x = moved(m.x, m.vx, tick).wrapping_sub(f.x);
    let y = moved(m.y, m.vy, tick).wrapping_sub(f.y);
    let along = x.wrapping_mul(f.dx).wrapping_add(y.wrapping_mul(f.dy));
    Place {
        distance: along.wrapping_neg(),
        offset: x.wrapping_mul(f.dy).wrapping_sub(y.wrapping_mul(f.dx)),
        altitude: moved(m.alt, m.vz, tick),
    }
}

/// The greatest number whose square is at most that of the direction's length.
fn length(f: &Funnel) -> i64 {
    let square = f
        .dx
        .wrapping_mul(f.dx)
        .wrapping_add(f.dy.wrapping_mul(f.dy));
    let mut length = 0;
    for n in 0..=14_142u16 {
        let n = i64::from(n);
        if n.wrapping_mul(n) <= square {
            length = n;
        }
    }
    length
}

/// What 10,000 times an offset is held against.
fn side(n: i64, half: i64, side: i64, distance: i64) -> i64 {
    let threshold = n.wrapping_mul(half).wrapping_mul(5_120_000);
    threshold.wrapping_add(side.wrapping_mul(distance))
}

/// 2,500 times the length and the height over a slope's base, which 3 times the rise and the distance is held against.
fn height(n: i64, f: &Funnel, base: i64, altitude: i64) -> i64 {
    let base = f.elevation.wrapping_add(base).wrapping_mul(6_144);
    let over = altitude.wrapping_mul(5).wrapping_sub(base);
    over.wrapping_mul(n).wrapping_mul(2_500)
}

fn rise(rise: i64, distance: i64) -> i64 {
    rise.wrapping_mul(distance).wrapping_mul(3)
}

fn is_captured(n: i64, m: &Motion, f: &Funnel) -> bool {
    let now = place_at(m, f, 0);
    let inbound = m
        .vx
        .wrapping_mul(f.dx)
        .wrapping_add(m.vy.wrapping_mul(f.dy));
    let sides = side(n, f.capture_half, f.capture_side, now.distance);
    let reach = f.reach.wrapping_mul(512).wrapping_mul(n);
    0 < now.distance
        && now.distance <= reach
        && now.offset.wrapping_abs().wrapping_mul(10_000) <= sides
        && now.altitude <= f.ceiling
        && 0 < inbound
}

/// What holds of a track at a tick.
fn hit_at(n: i64, m: &Motion, f: &Funnel, set: &Set, tick: i64) -> FunnelHit {
    let then = place_at(m, f, tick);
    let offset = then.offset.wrapping_mul(10_000);
    let sides = side(n, f.half, f.side, then.distance);
    let low = height(n, f, f.low_base, then.altitude);
    let high = height(n, f, f.high_base, then.altitude);
    FunnelHit {
        first: tick,
        below: low < rise(f.low_rise, then.distance),
        above: high > rise(f.high_rise, then.distance),
        left: offset.wrapping_neg() > sides,
        right: offset > sides,
        urgent: tick <= set.urgent,
    }
}

/// The hit, asked at each tick.
fn slow_hit(m: &Motion, f: &Funnel, set: &Set) -> Option<FunnelHit> {
    let n = length(f);
    if !is_captured(n, m, f) {
        return None;
    }
    for tick in 0..=7_680u16 {
        let tick = i64::from(tick);
        let hit = hit_at(n, m, f, set, tick);
        let outside = hit.below || hit.above || hit.left || hit.right;
        if tick <= set.look[3] && 0 < place_at(m, f, tick).distance && outside {
            return Some(hit);
        }
    }
    None
}

/// Numbers that look like drawn ones.
#[derive(Drop)]
struct Draws {
    state: u64,
}

impl Draws {
    /// A number of `count`, from `low` on.
    fn from(&mut self, low: i64, count: u32) -> i64 {
        let next = self.state.wrapping_mul(6_364_136_223_846_793_005);
        self.state = next.wrapping_add(1_442_695_040_888_963_407);
        let drawn = (self.state >> 33) % u64::from(count).max(1);
        low.wrapping_add(drawn as i64)
    }

    /// A funnel in a direction of length 10 to 100.
    fn funnel(&mut self) -> Funnel {
        Funnel {
            x: self.from(-1_000_000, 2_000_001),
            y: self.from(-1_000_000, 2_000_001),
            dx: self.from(-70, 141),
            dy: self.from(10, 61),
            elevation: self.from(-100, 400),
            low_base: self.from(-300, 400),
            low_rise: self.from(500, 1_500),
            half: self.from(0, 400),
            ..EAST
        }
    }

    /// A track to the front of a funnel that mostly flies in its direction, between its slopes.
    fn motion(&mut self, f: &Funnel) -> Motion {
        let ahead = self.from(-1_000, 120_000);
        let aside = self.from(-2_500, 5_001);
        let speed = self.from(-1, 10);
        let x = moved(moved(f.x, f.dx, ahead.wrapping_neg()), f.dy, aside);
        let y = moved(
            moved(f.y, f.dy, ahead.wrapping_neg()),
            f.dx,
            aside.wrapping_neg(),
        );
        Motion {
            x,
            y,
            vx: moved(self.from(-60, 121), f.dx, speed),
            vy: moved(self.from(-60, 121), f.dy, speed),
            z: 0,
            alt: moved(self.from(0, 700_000), 30, ahead),
            vz: self.from(-500, 700),
        }
    }
}

/// How many hits there are, how many of them begin later than now, and how many have each flag.
#[derive(Clone, Copy)]
struct Counts {
    hits: u32,
    later: u32,
    below: u32,
    above: u32,
    left: u32,
    right: u32,
}

impl Counts {
    fn with(self, hit: FunnelHit) -> Counts {
        let more = |count: u32, told| count.saturating_add(u32::from(told));
        Counts {
            hits: more(self.hits, true),
            later: more(self.later, 0 < hit.first),
            below: more(self.below, hit.below),
            above: more(self.above, hit.above),
            left: more(self.left, hit.left),
            right: more(self.right, hit.right),
        }
    }
}

#[test]
fn hits_as_asked_at_each_tick(rt: HostRuntime) {
    let mut draws = Draws { state: 7 };
    let mut counts = Counts {
        hits: 0,
        later: 0,
        below: 0,
        above: 0,
        left: 0,
        right: 0,
    };
    for _ in 0..400 {
        let f = draws.funnel();
        let m = draws.motion(&f);
        let mut set = SITE;
        set.look[3] = draws.from(0, 7_681);
        let hit = examined(&rt, m, f, set);
        assert_eq!(rt; hit, slow_hit(&m, &f, &set));
        if let Some(hit) = hit {
            counts = counts.with(hit);
        }
    }
    // Enough of them are hit, enough of those later, and enough in each way.
    for count in [counts.below, counts.above, counts.left, counts.right] {
        assert!(rt; 20 < count);
    }
    assert!(rt; 100 < counts.later);
    assert!(rt; counts.hits < 300);
}
