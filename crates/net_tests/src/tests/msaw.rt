// Expected values are worked out by hand: a tick is 1/128 s, a metre 512 units, and 25 ft are 30,720.
ghost use Rattle.site_types.specs.Ranges.{IsSet};
ghost use Rattle.terrain_file.specs.Ranges.{IsTerrain};
ghost use Rattle.track_motion.specs.Motions.{InRange};

use super::sets::{SITE, expect_set};
use site_types::{MSAW, Set};
use std::alloc::{AllocError, Global};
use std::process::Abort;
use std::test::Fail;
use terrain_cells::{Ground, msaw};
use terrain_file::{Heights, NO_HEIGHT, Terrain};
use tick_sets::TickHit;
use track_motion::Motion;

/// 25 ft, in the units of an altitude.
const STEP: i64 = 30_720;

/// A cell's side of 1,000 m.
const SIDE: i64 = 512_000;

/// At rest over a corner at 0. The level is far above, the altitude isn't.
const AT_REST: Motion = Motion {
    x: 0,
    y: 0,
    vx: 0,
    vy: 0,
    z: 2_000_000_000,
    alt: 0,
    vz: 0,
};

/// 1,000 ft in the lower row and 2,000 ft in the upper one.
const TWO_ROWS: [i16; 4] = [40, 40, 80, 80];

/// 2,500 ft in the middle, and the sea around it.
const PEAK: [i16; 9] = [0, 0, 0, 0, 100, 0, 0, 0, 0];

/// Cells of 1,000 m from a corner on.
fn cells(
    alloc: Global,
    corner: (i64, i64),
    columns: u32,
    rows: u32,
    values: &[i16],
) -> Result<Terrain, AllocError> {
    Ok(Terrain {
        x0: corner.0,
        y0: corner.1,
        cell: SIDE,
        columns,
        rows,
        values: Heights::new(Vec::from_slice(alloc, values)?),
    })
}

/// The hit of a motion that is in range by a terrain whose values are, by a set whose values are.
fn examined(rt: &impl Abort, m: Motion, ground: &Ground<'_>, set: Set) -> Option<TickHit> {
    let terrain = ground.terrain();
    assert!(rt; m.in_range());
    // 2^31 m, and from 100 m to 100 km.
    assert!(rt; terrain.x0.unsigned_abs() <= 1_099_511_627_776);
    assert!(rt; terrain.y0.unsigned_abs() <= 1_099_511_627_776);
    assert!(rt; 51_200 <= terrain.cell);
    assert!(rt; terrain.cell <= 51_200_000);
    assert!(rt; terrain.columns <= 2_048);
    assert!(rt; terrain.rows <= 2_048);
    let cells = terrain.rows as usize * terrain.columns as usize;
    assert!(rt; terrain.values.as_slice().len() == cells);
    expect_set(rt, &set);
    once(m, ground, set)
}

/// The same, of values in range.
fn once(m: Motion, ground: &Ground<'_>, set: Set) -> Option<TickHit>
    requires motion { InRange m }
    requires terrain { IsTerrain ground.now }
    requires set { IsSet set }
{
    msaw(&m, ground.terrain(), &set)
}

fn expect_hits(rt: &impl Abort, terrain: &Terrain, rows: &[(Motion, Option<TickHit>)]) {
    let ground = Ground::of(terrain);
    for (m, want) in rows {
        let hit = examined(rt, *m, &ground, SITE);
        assert_eq!(rt; hit, *want, "of {m:?}");
    }
}

/// A hit at or before 20 s.
fn soon(first: i64) -> Option<TickHit> {
    Some(TickHit {
        first,
        urgent: true,
    })
}

/// A hit after 20 s.
fn late(first: i64) -> Option<TickHit> {
    Some(TickHit {
        first,
        urgent: false,
    })
}

fn place(x: i64, y: i64) -> Motion {
    Motion { x, y, ..AT_REST }
}

fn flight(x: i64, y: i64, vx: i64, vy: i64) -> Motion {
    Motion {
        x,
        y,
        vx,
        vy,
        ..AT_REST
    }
}

/// The same flight at an altitude in 25 ft.
fn at_altitude(steps: i16, m: Motion) -> Motion {
    Motion {
        alt: STEP * i64::from(steps),
        ..m
    }
}

/// 2,100 ft is 84 steps, and 2,580,480 - 240*t < 2,457,600 first at 513.
#[test]
fn descent_along_the_border_of_two_rows(rt: HostRuntime) -> Result<(), Fail> {
    let terrain = cells(rt.alloc(), (0, 0), 2, 2, &TWO_ROWS)?;
    let descent = |y| Motion {
        vz: -240,
        ..at_altitude(84, flight(51_200, y, 200, 0))
    };
    // Below 1,000 ft from tick 5,633 on, but beyond the terrain from 4,864 on.
    let rows = [
        (descent(SIDE), soon(513)),
        (descent(SIDE - 1), None),
        (descent(2 * SIDE - 1), soon(513)),
        (descent(2 * SIDE), None),
    ];
    expect_hits(&rt, &terrain, &rows);
    assert_eq!(rt;
        Ground::of(&terrain).terrain().values.as_slice(),
        TWO_ROWS.as_slice()
    );
    Ok(())
}

#[test]
fn at_rest_beside_a_terrain(rt: HostRuntime) -> Result<(), Fail> {
    let terrain = cells(rt.alloc(), (0, 0), 2, 2, &TWO_ROWS)?;
    let ground = Ground::of(&terrain);
    for alt in [-4_294_967_296, -1_006_632_961, -1, 0, 4_294_967_296] {
        for (x, y) in [(-512, 0), (-1, 0), (0, -1), (2 * SIDE, 0), (0, 2 * SIDE)] {
            let m = Motion { alt, ..place(x, y) };
            assert_eq!(rt; examined(&rt, m, &ground, SITE), None, "of {m:?}");
        }
    }
    Ok(())
}

#[test]
fn at_rest_on_a_border(rt: HostRuntime) -> Result<(), Fail> {
    let terrain = cells(rt.alloc(), (0, 0), 2, 2, &TWO_ROWS)?;
    let last = 2 * SIDE - 1;
    let rows = [
        (place(0, 0), soon(0)),
        (place(last, last), soon(0)),
        (place(last, 0), soon(0)),
        (place(0, last), soon(0)),
        (place(SIDE, 0), soon(0)),
        // At 1,250 ft.
        (at_altitude(50, place(SIDE, SIDE)), soon(0)),
        (at_altitude(50, place(SIDE - 1, SIDE)), soon(0)),
        (at_altitude(50, place(SIDE, SIDE - 1)), None),
        // At 2,000 ft, and a unit below.
        (at_altitude(80, place(SIDE, SIDE)), None),
        (
            Motion {
                alt: 80 * STEP - 1,
                ..place(SIDE, SIDE)
            },
            soon(0),
        ),
    ];
    expect_hits(&rt, &terrain, &rows);
    Ok(())
}

#[test]
fn into_a_terrain_from_each_side_and_corner(rt: HostRuntime) -> Result<(), Fail> {
    let terrain = cells(rt.alloc(), (0, 0), 2, 2, &TWO_ROWS)?;
    let rows = [
        // From the left, and a unit farther.
        (flight(-100_000, 300_000, 1_000, 0), soon(100)),
        (flight(-100_001, 300_000, 1_000, 0), soon(101)),
        // From the right: 1,124,000 - 1,000*t is below 1,024,000 first at 101.
        (flight(1_123_999, 300_000, -1_000, 0), soon(100)),
        (flight(1_124_000, 300_000, -1_000, 0), soon(101)),
        // From below, and from above.
        (flight(300_000, -100_000, 0, 1_000), soon(100)),
        (flight(300_000, -100_001, 0, 1_000), soon(101)),
        (flight(300_000, 1_123_999, 0, -1_000), soon(100)),
        (flight(300_000, 1_124_000, 0, -1_000), soon(101)),
        // Over a corner: the later of the two axes decides.
        (flight(-100_000, -50_000, 1_000, 400), soon(125)),
        (flight(1_124_000, -50_000, -1_000, 250), soon(200)),
        (flight(1_124_000, 1_034_240, -1_000, -100), soon(103)),
        (flight(-100_000, 1_026_000, 1_000, -500), soon(100)),
        // Above the upper border from tick 48 on, to the right of the left one from 100 on.
        (flight(-100_000, 1_000_000, 1_000, 500), None),
        // Away from it on each side.
        (flight(-1, 300_000, -1_000, 0), None),
        (flight(1_024_000, 300_000, 1_000, 0), None),
        (flight(300_000, -1, 0, -1_000), None),
        (flight(300_000, 1_024_000, 0, 1_000), None),
        // At the last tick, a unit too far, and late.
        (flight(-768_000, 300_000, 100, 0), late(7_680)),
        (flight(-768_001, 300_000, 100, 0), None),
        (flight(-256_000, 300_000, 100, 0), soon(2_560)),
        (flight(-256_001, 300_000, 100, 0), late(2_561)),
    ];
    expect_hits(&rt, &terrain, &rows);
    Ok(())
}

/// At 1,250 ft, over the sea, to the peak in the middle.
#[test]
fn from_cell_to_cell_in_each_direction(rt: HostRuntime) -> Result<(), Fail> {
    let terrain = cells(rt.alloc(), (0, 0), 3, 3, &PEAK)?;
    let last = 3 * SIDE - 1;
    let over = |x, y, vx, vy| at_altitude(50, flight(x, y, vx, vy));
    let rows = [
        (over(0, 700_000, 1_000, 0), soon(512)),
        (over(last, 700_000, -1_000, 0), soon(512)),
        (over(700_000, 0, 0, 500), soon(1_024)),
        (over(700_000, last, 0, -500), soon(1_024)),
        // From a unit beside the terrain.
        (over(-1, 700_000, 1_000, 0), soon(513)),
        (over(last + 1, 700_000, -1_000, 0), soon(513)),
        // 600*t is at or above 512,000 first at 854.
        (over(0, 0, 1_000, 600), soon(854)),
        (over(last, 0, -1_000, 600), soon(854)),
        (over(last, last, -1_000, -600), soon(854)),
        (over(0, last, 1_000, -600), soon(854)),
        // Through corners, and past one: at tick 1,024 it is behind the column and at the row's border.
        (over(0, 0, 1_000, 1_000), soon(512)),
        (over(last, last, -1_000, -1_000), soon(512)),
        (over(0, 0, 1_000, 500), None),
        // From the peak away.
        (over(700_000, 700_000, 1_000, 0), soon(0)),
        (over(1_024_000, 700_000, 1_000, 0), None),
    ];
    expect_hits(&rt, &terrain, &rows);
    Ok(())
}

#[test]
fn along_a_border(rt: HostRuntime) -> Result<(), Fail> {
    let terrain = cells(rt.alloc(), (0, 0), 2, 2, &TWO_ROWS)?;
    let over = |x, y, vx, vy| at_altitude(50, flight(x, y, vx, vy));
    let rows = [
        (over(-51_200, SIDE, 200, 0), soon(256)),
        (over(-51_200, SIDE - 1, 200, 0), None),
        (over(SIDE, 0, 0, 200), soon(2_560)),
        (over(2 * SIDE, 0, 0, 200), None),
        (over(0, 2 * SIDE, 200, 0), None),
        // Downwards from the border, with the border at tick 0 alone.
        (over(SIDE, SIDE, 0, -200), soon(0)),
        (over(SIDE, SIDE - 1, 0, -200), None),
    ];
    expect_hits(&rt, &terrain, &rows);
    Ok(())
}

/// It comes over the last cell at tick 7,680, where it is a unit below its height, or at it.
#[test]
fn descent_into_the_last_cell(rt: HostRuntime) -> Result<(), Fail> {
    let terrain = cells(rt.alloc(), (0, 0), 2, 2, &TWO_ROWS)?;
    let descent = |alt, x| Motion {
        alt,
        vz: -100,
        ..flight(x, 600_000, -50, 0)
    };
    let height = 80 * STEP;
    let rows = [
        (descent(height + 767_999, 1_407_999), late(7_680)),
        (descent(height + 767_999, 1_408_000), None),
        (descent(height + 768_000, 1_407_999), None),
        // Over it from tick 7,679 on.
        (descent(height + 767_899, 1_407_949), late(7_679)),
        (descent(height + 767_900, 1_407_949), late(7_680)),
        // A climb is lowest where it comes in.
        (
            Motion {
                vz: 100,
                ..descent(height - 12_801, -12_800)
            },
            None,
        ),
        (
            Motion {
                vx: 100,
                vz: 100,
                ..descent(height - 12_801, -12_800)
            },
            soon(128),
        ),
        (
            Motion {
                vx: 100,
                vz: 100,
                ..descent(height - 12_800, -12_800)
            },
            None,
        ),
    ];
    expect_hits(&rt, &terrain, &rows);
    Ok(())
}

#[test]
fn cell_without_a_height(rt: HostRuntime) -> Result<(), Fail> {
    let terrain = cells(rt.alloc(), (0, 0), 3, 1, &[80, NO_HEIGHT, 80])?;
    let rows = [
        // Below the cells' height from tick 615 on, while it is over the one without a height.
        (
            Motion {
                vz: -500,
                ..at_altitude(90, flight(0, 0, 1_000, 0))
            },
            soon(1_024),
        ),
        (flight(600_000, 0, 1_000, 0), soon(424)),
        (flight(600_000, 0, -1_000, 0), soon(89)),
        // Below what the value would be as a height.
        (
            Motion {
                alt: -2_000_000_000,
                ..place(600_000, 0)
            },
            None,
        ),
    ];
    expect_hits(&rt, &terrain, &rows);
    Ok(())
}

#[test]
fn one_cell_below_the_sea(rt: HostRuntime) -> Result<(), Fail> {
    let terrain = cells(rt.alloc(), (-SIDE, -SIDE), 1, 1, &[-40])?;
    let rows = [
        (at_altitude(-41, place(-1, -1)), soon(0)),
        (at_altitude(-41, place(-SIDE, -SIDE)), soon(0)),
        (at_altitude(-40, place(-1, -1)), None),
        (at_altitude(-41, place(0, -1)), None),
        (at_altitude(-41, place(-1, 0)), None),
        (at_altitude(-41, place(-SIDE - 1, -1)), None),
        (at_altitude(-41, place(-1, -SIDE - 1)), None),
    ];
    expect_hits(&rt, &terrain, &rows);
    Ok(())
}

#[test]
fn no_cell(rt: HostRuntime) -> Result<(), Fail> {
    let terrain = cells(rt.alloc(), (0, 0), 0, 0, &[])?;
    let rows = [
        (place(0, 0), None),
        (flight(-100, -100, 1, 1), None),
        (at_altitude(-32_768, flight(100, 100, -1, -1)), None),
    ];
    expect_hits(&rt, &terrain, &rows);
    Ok(())
}

/// So many values: of the sea, and the last one.
fn sea_and(alloc: Global, count: usize, last: i16) -> Result<Vec<i16>, AllocError> {
    let mut values = vec![in alloc; 0; count]?;
    if let Some(value) = values.last_mut() {
        *value = last;
    }
    Ok(values)
}

/// 2,048 by 2,048 cells of 100 m, with 10,000 ft in the last: it begins at 104,806,400 along both axes.
#[test]
fn one_high_cell_far_off(rt: HostRuntime) -> Result<(), Fail> {
    let terrain = Terrain {
        x0: 0,
        y0: 0,
        cell: 51_200,
        columns: 2_048,
        rows: 2_048,
        values: Heights::new(sea_and(rt.alloc(), 4_194_304, 400)?),
    };
    let over = |x, y, vx, vy| at_altitude(200, flight(x, y, vx, vy));
    let rows = [
        (over(97_806_400, 104_806_500, 1_000, 0), late(7_000)),
        (over(97_806_400, 104_806_399, 1_000, 0), None),
        // 20,000*t is at or above 104,806,400 first at 5,241.
        (over(0, 0, 20_000, 20_000), late(5_241)),
        (over(0, 0, 20_000, 19_000), None),
    ];
    expect_hits(&rt, &terrain, &rows);
    Ok(())
}

/// Numbers that look like any.
#[derive(Drop)]
struct Dice {
    state: u64,
}

impl Dice {
    /// From `low` on, so many.
    fn roll(&mut self, low: i64, count: u32) -> i64 {
        self.state ^= self.state << 13;
        self.state ^= self.state >> 7;
        self.state ^= self.state << 17;
        let number = (self.state >> 32) as u32;
        low.wrapping_add(i64::from(number % count.max(1)))
    }
}

/// How many whole sides a place is behind a corner, where that is below the count.
fn counted(corner: i64, side: i64, count: u32, place: i64) -> Option<u32> {
    let mut border = corner;
    if place < border {
        return None;
    }
    for index in 0..count {
        border = border.wrapping_add(side);
        if place < border {
            return Some(index);
        }
    }
    None
}

/// Whether the track is too low at a tick.
fn is_too_low(m: &Motion, terrain: &Terrain, tick: i64) -> Option<bool> {
    let x = m.vx.wrapping_mul(tick).wrapping_add(m.x);
    let y = m.vy.wrapping_mul(tick).wrapping_add(m.y);
    let altitude = m.vz.wrapping_mul(tick).wrapping_add(m.alt);
    let column = counted(terrain.x0, terrain.cell, terrain.columns, x)?;
    let row = counted(terrain.y0, terrain.cell, terrain.rows, y)?;
    let index = row.wrapping_mul(terrain.columns).wrapping_add(column);
    let value = *terrain.values.as_slice().get(index as usize)?;
    Some(value != NO_HEIGHT && altitude < STEP * i64::from(value))
}

/// The hit by a look at each tick.
fn asked_at_each_tick(m: &Motion, terrain: &Terrain, set: &Set) -> Option<TickHit> {
    for first in 0..15_361i64 {
        if set.look[MSAW] < first {
            return None;
        }
        if is_too_low(m, terrain, first) == Some(true) {
            return Some(TickHit {
                first,
                urgent: first <= set.urgent,
            });
        }
    }
    None
}

#[test]
fn as_asked_at_each_tick(rt: HostRuntime) -> Result<(), Fail> {
    let mut dice = Dice {
        state: 0x9e37_79b9_7f4a_7c15,
    };
    let mut hits = 0u32;
    for _ in 0..8 {
        let mut values = Vec::new(rt.alloc());
        for _ in 0..20 {
            let value = i16::try_from(dice.roll(-20, 121)).unwrap_or(NO_HEIGHT);
            values.push(if value < 0 { NO_HEIGHT } else { value })?;
        }
        let terrain = Terrain {
            x0: dice.roll(-300_000, 600_000),
            y0: dice.roll(-300_000, 600_000),
            cell: dice.roll(51_200, 100_000),
            columns: 5,
            rows: 4,
            values: Heights::new(values),
        };
        let ground = Ground::of(&terrain);
        for _ in 0..50 {
            let m = Motion {
                x: dice.roll(-300_000, 1_000_000),
                y: dice.roll(-300_000, 1_000_000),
                vx: dice.roll(-300, 601),
                vy: dice.roll(-300, 601),
                z: 0,
                alt: dice.roll(0, 3_500_000),
                vz: dice.roll(-300, 401),
            };
            let want = asked_at_each_tick(&m, &terrain, &SITE);
            assert_eq!(rt; examined(&rt, m, &ground, SITE), want, "of {m:?}");
            if want.is_some() {
                hits = hits.wrapping_add(1);
            }
        }
    }
    // Neither none nor all of 400.
    assert!(rt; 80 <= hits, "{hits}");
    assert!(rt; hits <= 320, "{hits}");
    Ok(())
}
