//! A terrain that is made ready to be looked at often.
ghost use Rattle.std.specs.Prelude.{◌≡◌, ◌≤ℤ◌, All};
ghost use Rattle.tick_sets.specs.Inequalities.{IsLook};
ghost use Rattle.track_motion.specs.Motions.{InRange};
ghost use Rattle.terrain_cells.specs.Msaw.{is_too_low_at};
ghost use Rattle.terrain_cells.specs.Walks.{StartsAt};

use crate::height::first_below;
use std::marker::Model;
use terrain_file::{NO_HEIGHT, Terrain};
use track_motion::Motion;

/// A terrain with its greatest height.
#[derive(Drop)]
pub struct Ground<'a> {
    terrain: &'a Terrain,
    highest: i16,
}

impl<'a> Model for Ground<'a> {
    ghost use Rattle.std.specs.Prelude.{◌≤ℤ◌, All};
    ghost use Rattle.terrain_file.specs.declared.terrain.Terrain.{Terrain};

    ghost Value = { Terrain };

    ghost view = { λ ground. ground.terrain.now };

    ghost invariant = { λ ground. All (λ value. value ≤ℤ ground.highest) ground.terrain.now.values };
}

impl<'a> Ground<'a> {
    /// The ground of a terrain, made once and used in every cycle.
    pub fn of(terrain: &'a Terrain) -> Ground<'a>
        ensures { result ≡ terrain.now }
    {
        let highest = highest_of(terrain.values.as_slice());
        Ground { terrain, highest }
    }

    /// The terrain.
    pub fn terrain(&self) -> &'a Terrain
        ensures { result.now ≡ self.now }
    {
        self.terrain
    }

    /// The first tick of `0..=look` at which the track is below the greatest height: before it the track is
    /// too low nowhere. None where there is no such tick.
    pub(crate) fn first_under_highest(&self, m: &Motion, look: i64) -> Option<i64>
        requires motion { InRange m.now }
        requires look { IsLook look }
        ensures { StartsAt (is_too_low_at m.now self.now) look result }
    {
        first_below(m, self.highest, 0, look)
    }
}

/// The greatest of the values.
fn highest_of(values: &[i16]) -> i16
    ensures { All (λ value. value ≤ℤ result) values.now }
{
    values.iter().copied().max().unwrap_or(NO_HEIGHT)
}
