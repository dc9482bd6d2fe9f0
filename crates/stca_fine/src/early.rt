//! The early way out: pairs that one axis alone keeps out of every limit.
ghost use Rattle.std.specs.Prelude.{◌≡◌, None, IsTrue};
ghost use Rattle.tick_sets.specs.Inequalities.{IsLook};
ghost use Rattle.site_types.specs.Ranges.{IsSet};
ghost use Rattle.stca_fine.specs.Relative.{ArePair, IsDrift, IsLimit, StaysBeyond};
ghost use Rattle.stca_fine.specs.Stca.{stca_hit};

use crate::limits::{greater_h, greater_v};
use site_types::{Net, Set};
use tick_sets::laws::searches_find_the_first;
use track_motion::Motion;

/// Along one axis alone the two stay at the greater of its two limits or beyond it, for the whole
/// look-ahead. This takes neither a root nor a square.
pub fn stay_apart(a: &Motion, b: &Motion, set: &Set) -> bool
    requires pair { ArePair a.now b.now }
    requires set { IsSet set.now }
    ensures { IsTrue result → stca_hit a.now b.now set.now ≡ None }
{
    // The proof takes this law; the call does nothing.
    searches_find_the_first();
    let look = set.look_ahead(Net::Stca);
    let h = greater_h(set);
    stays_beyond(b.x - a.x, b.vx - a.vx, h, look)
        || stays_beyond(b.y - a.y, b.vy - a.vy, h, look)
        || stays_beyond(b.z - a.z, b.vz - a.vz, greater_v(a, b, set), look)
}

/// A distance along an axis that changes evenly is on one side of a limit, at the first and at the last tick of
/// the look-ahead, and so at each tick.
fn stays_beyond(apart: i64, speed: i64, limit: i64, look: i64) -> bool
    requires drift { IsDrift apart speed }
    requires limit { IsLimit limit }
    requires look { IsLook look }
    ensures { IsTrue result → StaysBeyond apart speed limit look }
{
    let end = apart + speed * look;
    limit <= apart.min(end) || apart.max(end) <= -limit
}
