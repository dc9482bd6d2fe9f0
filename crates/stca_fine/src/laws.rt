//! Laws of the definition of a hit: each is the contract of a function that does nothing.
ghost use Rattle.std.specs.Prelude.{◌≡◌, ◌↔◌, IfSome, IsSome};
ghost use Rattle.site_types.specs.declared.site.Set.{Set};
ghost use Rattle.track_motion.specs.declared.motion.Motion.{Motion};
ghost use Rattle.stca_fine.specs.Conflicts.{IsClosest, IsFirst, IsHit};
ghost use Rattle.stca_fine.specs.Stca.{stca_hit};
ghost use Rattle.stca_fine.specs.declared.hit.TheConstants.{LARGEST_CHS, LARGEST_SEPARATION};

use tick_sets::laws::searches_find_the_first;

/// The numbers: the most of 24 bits and of 16 bits.
pub fn numbers()
    ensures chs { LARGEST_CHS ≡ 16777215 }
    ensures separation { LARGEST_SEPARATION ≡ 65535 }
{}

/// A pair is hit exactly where current proximity holds, or linear prediction at some tick of the look-ahead.
pub fn hit_where_a_filter_holds()
    ensures { (a b : Motion) (set : Set) → IsSome (stca_hit a b set) ↔ IsHit a b set }
{
    // The proof takes this law.
    searches_find_the_first();
}

/// The first tick is 0 in current proximity, else the least tick at which linear prediction holds.
pub fn first_is_least()
    ensures { (a b : Motion) (set : Set) → IfSome (stca_hit a b set) (λ hit. IsFirst a b set hit.first) }
{
    // The proof takes this law.
    searches_find_the_first();
}

/// The closest tick is the least one at which the two are nearest.
pub fn closest_is_least()
    ensures { (a b : Motion) (set : Set) → IfSome (stca_hit a b set) (λ hit. IsClosest a b set hit.closest) }
{}
