//! Laws of the definition of a hit: each is the contract of a function that does nothing. Their proofs take
//! the law of searches, whose call does nothing either.
ghost use Rattle.std.specs.Prelude.{◌↔◌, IfSome, IsSome};
ghost use Rattle.site_types.specs.declared.site.Set.{Set};
ghost use Rattle.terrain_file.specs.Ranges.{IsTerrain};
ghost use Rattle.terrain_file.specs.declared.terrain.Terrain.{Terrain};
ghost use Rattle.track_motion.specs.declared.motion.Motion.{Motion};
ghost use Rattle.terrain_cells.specs.Msaw.{msaw_hit};
ghost use Rattle.terrain_cells.specs.TooLow.{IsFirst, IsHit};

use tick_sets::laws::searches_find_the_first;

/// A track is hit by a terrain exactly where it is too low over a cell with a height at some tick of the look-ahead.
pub fn hit_where_too_low()
    ensures { (m : Motion) (terrain : Terrain) (set : Set) → IsTerrain terrain →
        IsSome (msaw_hit m terrain set) ↔ IsHit m terrain set }
{
    searches_find_the_first();
}

/// The first tick of a hit is the least one at which the track is too low.
pub fn first_is_least()
    ensures { (m : Motion) (terrain : Terrain) (set : Set) → IsTerrain terrain →
        IfSome (msaw_hit m terrain set) (λ hit. IsFirst m terrain set hit.first) }
{
    searches_find_the_first();
}
