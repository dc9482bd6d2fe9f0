//! Laws of the definitions: each is the contract of a function that does nothing, or takes another law.
ghost use Rattle.std.specs.Prelude.{◌≡◌, ◌↔◌, IfSome, IsSome, IsTrue, pos, ◌≤ℤ◌};
ghost use Rattle.site_types.specs.declared.funnel.Funnel.{Funnel};
ghost use Rattle.site_types.specs.declared.site.Set.{Set};
ghost use Rattle.track_motion.specs.declared.motion.Motion.{Motion};
ghost use Rattle.approach_funnel.specs.Apm.{apm_hit};
ghost use Rattle.approach_funnel.specs.Deviations.{AreFlags, IsFirst, IsHit};
ghost use Rattle.approach_funnel.specs.declared.units.TheConstants.{RUN_LENGTH, RUN_METRES, RUN_SHARE, STEP_FEET, STEP_HEIGHT, STEP_SHARE};

use tick_sets::laws::searches_find_the_first;

/// The numbers: a run in metres and in length units, a step in feet and in height units, and the two as shares.
pub fn numbers()
    ensures run_metres { RUN_METRES ≡ pos 10000 }
    ensures run_length { RUN_LENGTH ≡ pos 5120000 }
    ensures step_feet { STEP_FEET ≡ pos 5 }
    ensures step_height { STEP_HEIGHT ≡ pos 6144 }
    ensures run_share { RUN_SHARE ≡ pos 2500 }
    ensures step_share { STEP_SHARE ≡ pos 3 }
{}

/// A track is hit by a funnel exactly where it is captured and deviates at some tick of the look-ahead.
pub fn hit_where_deviating()
    ensures { (m : Motion) (f : Funnel) (set : Set) → IsSome (apm_hit m f set) ↔ IsHit m f set }
{
    searches_find_the_first();
}

/// The first tick of a hit is the least one at which the track deviates.
pub fn first_is_least()
    ensures { (m : Motion) (f : Funnel) (set : Set) → IfSome (apm_hit m f set) (λ hit. IsFirst m f set hit.first) }
{
    searches_find_the_first();
}

/// The flags of a hit say what holds at its first tick.
pub fn flags_are_of_the_first()
    ensures { (m : Motion) (f : Funnel) (set : Set) → IfSome (apm_hit m f set) (AreFlags f m) }
{}

/// A hit is urgent exactly where its first tick is at most the set's.
pub fn urgent_where_soon()
    ensures { (m : Motion) (f : Funnel) (set : Set) → IfSome (apm_hit m f set) (λ hit. IsTrue hit.urgent ↔ (hit.first ≤ℤ set.urgent)) }
{}
