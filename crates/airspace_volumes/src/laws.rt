//! Laws of the definitions: each is the contract of a function that does nothing.
ghost use Rattle.std.specs.Prelude.{◌↔◌, ℕ, ◌≤◌, ℤ, pos, List, IfSome, IsSome, IsTrue};
ghost use Rattle.site_types.specs.declared.airspace.Volume.{Volume};
ghost use Rattle.site_types.specs.declared.site.Set.{Set};
ghost use Rattle.track_motion.specs.declared.motion.Motion.{Motion};
ghost use Rattle.polygon_plan.specs.Inside.{IsInsideAt};
ghost use Rattle.airspace_volumes.specs.Active.{holds_time};
ghost use Rattle.airspace_volumes.specs.Apw.{apw_hit};
ghost use Rattle.airspace_volumes.specs.Bounds.{PassesBy};
ghost use Rattle.airspace_volumes.specs.Infringements.{HoldsTime, IsFirst, IsHit};

use tick_sets::laws::searches_find_the_first;

/// When a pair of times holds a time of day.
pub fn times_in_words()
    ensures { (from to m : ℤ) → IsTrue (holds_time (from, to) m) ↔ HoldsTime from to m }
{}

/// A track is hit by a volume exactly where the volume is active and the track infringes it at some tick of the
/// look-ahead.
pub fn hit_where_infringed()
    ensures { (m : Motion) (v : Volume) (time : ℤ) (set : Set) → IsSome (apw_hit m v time set) ↔ IsHit m v time set }
{
    // The proof takes this law.
    searches_find_the_first();
}

/// The first tick of a hit is the least one at which the track infringes the volume.
pub fn first_is_least()
    ensures { (m : Motion) (v : Volume) (time : ℤ) (set : Set) → IfSome (apw_hit m v time set) (λ hit. IsFirst m v set hit.first) }
{
    // The proof takes this law.
    searches_find_the_first();
}

/// A track that stays on one side of all points of a polygon is at no tick inside it.
pub fn passers_by_stay_outside()
    ensures { (points : List (ℤ × ℤ)) (m : Motion) (look t : ℕ) → PassesBy points m look → t ≤ look → ¬ IsInsideAt points m (pos t) }
{}
