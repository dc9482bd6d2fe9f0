//! Columns along one axis of the plane, or rows along the other, and how long a track stays in each.
ghost use Rattle.std.specs.Prelude.{◌≡◌, ◌<◌, ◌≤◌, ◌+◌, ◌-ℤ◌, ◌≤ℤ◌, ◌<ℤ◌, pos, None};
ghost use Rattle.track_motion.specs.Motions.{InRange};
ghost use Rattle.terrain_file.specs.Ranges.{IsTerrain};
ghost use Rattle.terrain_cells.specs.Axes.{IsAxis, IsPlace};
ghost use Rattle.terrain_cells.specs.Walks.{AreTicks};

use crate::arithmetic::{quotient, value_at};
use terrain_file::Terrain;
use track_motion::Motion;

/// Farther along an axis than a track or a cell can be, in 1/512 m.
const FAR: i64 = 1 << 62;

/// Where a terrain's cells begin along an axis, how long the side of each is and how many there are; and a
/// track's place at tick 0 and its speed along this axis. In 1/512 m, and in these per tick.
#[derive(Clone, Copy)]
pub struct Axis {
    corner: i64,
    side: i64,
    count: u32,
    place: i64,
    speed: i64,
    ghost range: { IsAxis corner side count place speed },
}

/// Places along an axis that are in one column, or in one row, or in none: from `low`, included, to `high`, excluded.
#[derive(Clone, Copy)]
struct Band {
    low: i64,
    high: i64,
    index: Option<u32>,
}

/// A track's stay in one column, or in one row, or beside all of them: until its last tick, included.
#[derive(Clone, Copy)]
pub struct Stay {
    pub index: Option<u32>,
    pub last: i64,
}

impl Stay {
    /// One that is over before this tick.
    pub fn over(tick: i64) -> Stay
        requires { pos 0 ≤ℤ tick }
        ensures { result ≡ record { index = None; last = tick -ℤ pos 1 } }
    {
        Stay {
            index: None,
            last: tick - 1,
        }
    }
}

impl Axis {
    ghost use Rattle.terrain_cells.specs.Stays.{AreColumns, AreRows, IsBandOf, IsEnd, IsIn, IsKept, IsLastIn, IsStay, IsWide, border_of, place_at};

    /// The axis of the columns.
    pub fn of_columns(m: &Motion, terrain: &Terrain) -> Axis
        requires motion { InRange m.now }
        requires terrain { IsTerrain terrain.now }
        ensures { AreColumns m.now terrain.now result }
    {
        Axis {
            corner: terrain.x0,
            side: terrain.cell,
            count: terrain.columns,
            place: m.x,
            speed: m.vx,
        }
    }

    /// The axis of the rows.
    pub fn of_rows(m: &Motion, terrain: &Terrain) -> Axis
        requires motion { InRange m.now }
        requires terrain { IsTerrain terrain.now }
        ensures { AreRows m.now terrain.now result }
    {
        Axis {
            corner: terrain.y0,
            side: terrain.cell,
            count: terrain.rows,
            place: m.y,
            speed: m.vy,
        }
    }

    /// The stay at a tick: this one as long as it lasts, else the one that begins there.
    pub fn stay_at(&self, stay: Stay, tick: i64, look: i64) -> Stay
        requires ticks { AreTicks tick look }
        requires kept { IsKept self.now tick look stay }
        ensures { IsStay self.now tick look result }
    {
        if tick <= stay.last {
            stay
        } else {
            self.stay_from(tick, look)
        }
    }

    /// The stay that begins at a tick.
    fn stay_from(&self, tick: i64, look: i64) -> Stay
        requires { AreTicks tick look }
        ensures { IsStay self.now tick look result }
    {
        let band = self.band_of(value_at(self.place, self.speed, tick));
        Stay {
            index: band.index,
            last: self.last_in(band, tick, look),
        }
    }

    /// The band of a place: that of its column, or row, or all that lies before the first or behind the last.
    fn band_of(&self, place: i64) -> Band
        requires { IsPlace place }
        ensures { IsBandOf self.now place result }
    {
        if place < self.corner {
            return Band {
                low: -FAR,
                high: self.corner,
                index: None,
            };
        }
        let index = self.cells_before(place);
        if index < self.count {
            Band {
                low: self.border(index),
                high: self.border(index + 1),
                index: Some(index),
            }
        } else {
            Band {
                low: self.border(index),
                high: FAR,
                index: None,
            }
        }
    }

    /// How many columns, or rows, end at a place or before it.
    fn cells_before(&self, place: i64) -> u32
        requires place { IsPlace place }
        requires behind { self.now.corner ≤ℤ place }
        ensures few { result ≤ self.now.count }
        ensures from { border_of self.now result ≤ℤ place }
        ensures before { result < self.now.count → place <ℤ border_of self.now (result + 1) }
    {
        quotient(place - self.corner, self.side).min(i64::from(self.count)) as u32
    }

    /// Where a column, or a row, begins; of the count, where the last one ends.
    fn border(&self, index: u32) -> i64
        requires { index ≤ self.now.count }
        ensures border { result ≡ border_of self.now index }
        ensures near { IsEnd result }
    {
        self.corner + self.side * i64::from(index)
    }

    /// The last tick of `0..=look` until which the track is in the band in which it is at a tick.
    fn last_in(&self, band: Band, tick: i64, look: i64) -> i64
        requires ticks { AreTicks tick look }
        requires wide { IsWide band }
        requires has { IsIn band (place_at self.now tick) }
        ensures { IsLastIn self.now band tick look result }
    {
        if self.speed > 0 {
            quotient(band.high - 1 - self.place, self.speed).min(look)
        } else if self.speed < 0 {
            quotient(self.place - band.low, -self.speed).min(look)
        } else {
            look
        }
    }
}
