//! Laws of the definitions and of the numbers: each is the contract of a function that does nothing, or makes one call.
ghost use Rattle.std.specs.Prelude.{◌≡◌, ◌↔◌, IsTrue};
ghost use Rattle.std.specs.declared.cmp.Ordering.TheVariants.{Less};
ghost use Rattle.track_motion.specs.declared.rank.Stamped.{Stamped};
ghost use Rattle.track_motion.specs.Keys.{IsKeyBelow, key_cmp};
ghost use Rattle.track_motion.specs.Ranks.{Outranks, outranks};

use crate::motion::{
    FARTHEST, FASTEST, HEIGHT_UNITS_PER_25_FEET, LENGTH_UNITS_PER_HALF_METRE, LONGEST_AGE,
};
use crate::track::{TICKS_PER_DAY, TrackKey};
use std::cmp::Ordering;

/// The day in ticks of 1/128 s, the units of lengths (1/512 m) and of heights (1/30,720 of 25 ft), the longest
/// age (60 s), and the ranges of a motion.
pub fn numbers()
    ensures day { TICKS_PER_DAY ≡ 11059200 }
    ensures half_metre { LENGTH_UNITS_PER_HALF_METRE ≡ 256 }
    ensures feet { HEIGHT_UNITS_PER_25_FEET ≡ 30720 }
    ensures age { LONGEST_AGE ≡ 7680 }
    ensures farthest { FARTHEST ≡ 4294967296 }
    ensures fastest { FASTEST ≡ 32768 }
{}

/// A record outranks another exactly where it was told later, or at the same time by a lower feed, or at the
/// same time by the same feed at a later place.
pub fn rank_in_words()
    ensures { (a b : Stamped) → IsTrue (outranks a b) ↔ Outranks a b }
{}

/// A track's key is below another exactly where its system area code is, or, where that is the same, its system
/// identification code, or, where both are the same, its track number. So `Ord` has it.
pub fn key_in_words(a: TrackKey, b: TrackKey) -> Ordering
    ensures order { result ≡ key_cmp a b }
    ensures below { result ≡ Less ↔ IsKeyBelow a b }
{
    a.cmp(&b)
}
