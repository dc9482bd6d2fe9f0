//! Minimum safe altitude warning: whether a track is hit by a terrain.
ghost use Rattle.std.specs.Prelude.{◌≡◌, pos};
ghost use Rattle.tick_sets.specs.Inequalities.{IsLook};
ghost use Rattle.site_types.specs.Ranges.{IsSet};
ghost use Rattle.terrain_file.specs.Ranges.{IsTerrain};
ghost use Rattle.track_motion.specs.Motions.{InRange};
ghost use Rattle.terrain_cells.specs.Msaw.{is_too_low_at, msaw_hit};
ghost use Rattle.terrain_cells.specs.Walks.{AreTicks, FindsFrom};

use crate::axis::{Axis, Stay};
use crate::ground::Ground;
use crate::height::{first_under, height_in};
use site_types::{Net, Set};
use terrain_file::Terrain;
use tick_sets::TickHit;
use tick_sets::laws::searches_find_the_first;
use track_motion::Motion;

/// The hit of a track by a terrain, by the track's set. None where it isn't hit. It looks through the terrain's
/// heights for the greatest first: who asks of one terrain often has its ground made ready once.
pub fn msaw(m: &Motion, terrain: &Terrain, set: &Set) -> Option<TickHit>
    requires motion { InRange m.now }
    requires terrain { IsTerrain terrain.now }
    requires set { IsSet set.now }
    ensures { result ≡ msaw_hit m.now terrain.now set.now }
{
    Ground::of(terrain).hit(m, set)
}

impl<'a> Ground<'a> {
    /// The hit of a track by the terrain, by the track's set. None where it isn't hit.
    pub fn hit(&self, m: &Motion, set: &Set) -> Option<TickHit>
        requires motion { InRange m.now }
        requires terrain { IsTerrain self.now }
        requires set { IsSet set.now }
        ensures { result ≡ msaw_hit m.now self.now set.now }
    {
        // The proof takes this law; the call does nothing.
        searches_find_the_first();
        let first = first_too_low(m, self, set.look_ahead(Net::Msaw))?;
        Some(TickHit::from_tick(first, set.urgent))
    }
}

/// The first tick of `0..=look` at which the track is too low.
fn first_too_low(m: &Motion, ground: &Ground<'_>, look: i64) -> Option<i64>
    requires motion { InRange m.now }
    requires terrain { IsTerrain ground.now }
    requires look { IsLook look }
    ensures { FindsFrom (is_too_low_at m.now ground.now) (pos 0) look result }
{
    let start = ground.first_under_highest(m, look)?;
    first_too_low_from(m, ground.terrain(), start, look)
}

/// The first tick of `from..=look` at which the track is too low. The track goes from cell to cell; while it
/// stays in one, or beside all of them, the height under it is the same.
fn first_too_low_from(m: &Motion, terrain: &Terrain, from: i64, look: i64) -> Option<i64>
    requires motion { InRange m.now }
    requires terrain { IsTerrain terrain.now }
    requires ticks { AreTicks from look }
    ensures { FindsFrom (is_too_low_at m.now terrain.now) from look result }
{
    let columns = Axis::of_columns(m, terrain);
    let rows = Axis::of_rows(m, terrain);
    let mut column = Stay::over(from);
    let mut row = Stay::over(from);
    let mut tick = from;
    while tick <= look {
        column = columns.stay_at(column, tick, look);
        row = rows.stay_at(row, tick, look);
        let last = column.last.min(row.last);
        let height = height_in(terrain, column.index, row.index);
        if let Some(first) = first_under(m, height, tick, last) {
            return Some(first);
        }
        tick = last + 1;
    }
    None
}
