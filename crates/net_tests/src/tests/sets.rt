//! The parameter set of the nets' tests, and whether one is in range.
ghost use Rattle.std.specs.Prelude.{All, IsTrue};
ghost use Rattle.site_types.specs.Limits.{IsIn};
ghost use Rattle.site_types.specs.declared.units.TheConstants.{TICKS_PER_SECOND};
ghost use Rattle.site_types.specs.Ranges.{IsSet};
ghost use Rattle.site_types.specs.declared.ranges.TheConstants.{LOOK_SECONDS};

use site_types::Set;
use std::process::Abort;

/// 9,260 m and 800 or 1,000 ft ahead, 4,630 m and 500 or 600 ft now; 120 s ahead in STCA and 60 s in the other nets,
/// urgent to 20 s; the split at 29,000 ft.
pub const SITE: Set = Set {
    enabled: [true, true, true, true],
    look: [15_360, 7_680, 7_680, 7_680],
    h: 4_741_120,
    v_low: 983_040,
    v_high: 1_228_800,
    split: 35_635_200,
    now_h: 2_370_560,
    now_v_low: 614_400,
    now_v_high: 737_280,
    urgent: 2_560,
};

/// From 0 to 120 s.
fn are_looks(looks: &[i64]) -> bool
    ensures { IsTrue result → All (IsIn LOOK_SECONDS TICKS_PER_SECOND) looks.now }
{
    looks.iter().all(|look| 0 <= *look && *look <= 15_360)
}

/// The set's values are in range.
pub fn expect_set(rt: &impl Abort, set: &Set)
    ensures { IsSet set.now }
{
    // From 1 m to 100 km, from 25 ft to 10,000 ft, to 60,000 ft, and to 120 s.
    assert!(rt; are_looks(&set.look));
    assert!(rt; 512 <= set.h);
    assert!(rt; set.h <= 51_200_000);
    assert!(rt; 30_720 <= set.v_low);
    assert!(rt; set.v_low <= 12_288_000);
    assert!(rt; 30_720 <= set.v_high);
    assert!(rt; set.v_high <= 12_288_000);
    assert!(rt; 0 <= set.split);
    assert!(rt; set.split <= 73_728_000);
    assert!(rt; 512 <= set.now_h);
    assert!(rt; set.now_h <= 51_200_000);
    assert!(rt; 30_720 <= set.now_v_low);
    assert!(rt; set.now_v_low <= 12_288_000);
    assert!(rt; 30_720 <= set.now_v_high);
    assert!(rt; set.now_v_high <= 12_288_000);
    assert!(rt; 0 <= set.urgent);
    assert!(rt; set.urgent <= 15_360);
}
