//! The height of a cell, and when a track's altitude is below it.
ghost use Rattle.std.specs.Prelude.{◌≡◌};
ghost use Rattle.track_motion.specs.Motions.{InRange};
ghost use Rattle.terrain_cells.specs.Axes.{IsCourse, IsLimit};
ghost use Rattle.terrain_cells.specs.Cells.{height_in as height_of_cell};
ghost use Rattle.terrain_cells.specs.Msaw.{is_below_at, is_under_at};
ghost use Rattle.terrain_cells.specs.Walks.{AreTicks, FindsFrom, is_below_limit};

use crate::arithmetic::{quotient, value_at};
use terrain_file::{NO_HEIGHT, Terrain};
use track_motion::Motion;
use track_motion::motion::HEIGHT_UNITS_PER_25_FEET;

/// The height of the cell in a column and a row, in 25 ft. None where there is no such cell, or it has no height.
pub fn height_in(terrain: &Terrain, column: Option<u32>, row: Option<u32>) -> Option<i16>
    ensures { result ≡ height_of_cell terrain.now column row }
{
    let column = column? as usize;
    let row = row? as usize;
    let index = row * terrain.columns as usize + column;
    let value = *terrain.values.as_slice().get(index)?;
    if value == NO_HEIGHT {
        None
    } else {
        Some(value)
    }
}

/// The first tick of `from..=to` at which the altitude is below a height in 25 ft, where there is one.
pub fn first_under(m: &Motion, height: Option<i16>, from: i64, to: i64) -> Option<i64>
    requires motion { InRange m.now }
    requires ticks { AreTicks from to }
    ensures { FindsFrom (is_under_at m.now height) from to result }
{
    first_below(m, height?, from, to)
}

/// The first tick of `from..=to` at which the altitude is below a height in 25 ft.
pub fn first_below(m: &Motion, height: i16, from: i64, to: i64) -> Option<i64>
    requires motion { InRange m.now }
    requires ticks { AreTicks from to }
    ensures { FindsFrom (is_below_at m.now height) from to result }
{
    let limit = i64::from(HEIGHT_UNITS_PER_25_FEET) * i64::from(height);
    first_below_limit(m.alt, m.vz, limit, from, to)
}

/// The first tick of `from..=to` at which an altitude that changes evenly is below a limit: at once, or at no
/// tick where it isn't at the last, or else where it has come down to the limit.
fn first_below_limit(altitude: i64, rate: i64, limit: i64, from: i64, to: i64) -> Option<i64>
    requires course { IsCourse altitude rate }
    requires limit { IsLimit limit }
    requires ticks { AreTicks from to }
    ensures { FindsFrom (is_below_limit rate altitude limit) from to result }
{
    if value_at(altitude, rate, from) < limit {
        Some(from)
    } else if limit <= value_at(altitude, rate, to) {
        None
    } else {
        Some(quotient(altitude - limit, -rate) + 1)
    }
}
