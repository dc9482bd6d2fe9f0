//! The limits that a set says of a pair.
ghost use Rattle.std.specs.Prelude.{◌≡◌, ◌≤ℤ◌};
ghost use Rattle.site_types.specs.Ranges.{IsSet};
ghost use Rattle.stca_fine.specs.Relative.{IsLimit};
ghost use Rattle.stca_fine.specs.Stca.{by_split as split_limit, now_v_of, v_of};

use site_types::Set;
use track_motion::Motion;

/// A pair's vertical limit: the lower one where both levels are at or below the split.
pub fn by_split(a: &Motion, b: &Motion, set: &Set, low: i64, high: i64) -> i64
    ensures { result ≡ split_limit a.now b.now set.now low high }
{
    if a.z <= set.split && b.z <= set.split {
        low
    } else {
        high
    }
}

/// The greater of the two horizontal limits.
pub fn greater_h(set: &Set) -> i64
    requires { IsSet set.now }
    ensures h { set.now.h ≤ℤ result }
    ensures now_h { set.now.now_h ≤ℤ result }
    ensures limit { IsLimit result }
{
    set.h.max(set.now_h)
}

/// The greater of a pair's two vertical limits.
pub fn greater_v(a: &Motion, b: &Motion, set: &Set) -> i64
    requires { IsSet set.now }
    ensures v { v_of a.now b.now set.now ≤ℤ result }
    ensures now_v { now_v_of a.now b.now set.now ≤ℤ result }
    ensures limit { IsLimit result }
{
    let low = set.v_low.max(set.now_v_low);
    by_split(a, b, set, low, set.v_high.max(set.now_v_high))
}
