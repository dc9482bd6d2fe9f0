//! Approach path monitor: whether a track is hit by an approach funnel.
ghost use Rattle.std.specs.Prelude.{◌≡◌, ◌↔◌, IsTrue, Some, int_le};
ghost use Rattle.site_types.specs.Ranges.{IsFunnel, IsSet};
ghost use Rattle.track_motion.specs.Motions.{InRange};
ghost use Rattle.approach_funnel.specs.Apm.{apm_hit};

use crate::approach::Approach;
use crate::course::Course;
use crate::firsts::Firsts;
use site_types::{Funnel, Net, Set};
use tick_sets::laws::searches_find_the_first;
use track_motion::Motion;

/// What is reported of a track that deviates from its approach. The first tick, of 1/128 s, at which it is
/// outside, and which of the four it is then: several may be.
#[derive(Clone, Copy, Debug, PartialEq, Eq)]
pub struct FunnelHit {
    pub first: i64,
    /// Below the lower slope.
    pub below: bool,
    /// Above the upper slope.
    pub above: bool,
    /// Beside the funnel, seen in the landing direction.
    pub left: bool,
    pub right: bool,
    /// It begins soon.
    pub urgent: bool,
}

/// The hit of a track by a funnel, by the track's set. None where it isn't hit. It takes the length of the landing
/// direction first: who asks of one funnel often has its approach made ready once.
pub fn apm(m: &Motion, f: &Funnel, set: &Set) -> Option<FunnelHit>
    requires motion { InRange m.now }
    requires funnel { IsFunnel f.now }
    requires set { IsSet set.now }
    ensures { result ≡ apm_hit m.now f.now set.now }
{
    Approach::of(f).hit(m, set)
}

impl<'a> Approach<'a> {
    /// The hit of a track by the funnel, by the track's set. None where it isn't hit.
    pub fn hit(&self, m: &Motion, set: &Set) -> Option<FunnelHit>
        requires motion { InRange m.now }
        requires funnel { IsFunnel self.now }
        requires set { IsSet set.now }
        ensures { result ≡ apm_hit m.now self.now set.now }
    {
        // The proof takes this law; the call does nothing.
        searches_find_the_first();
        let course = Course::captured(m, self)?;
        let firsts = Firsts::of(course, m, self, set.look_ahead(Net::Apm));
        let first = firsts.least()?;
        Some(hit_from(firsts, first, set))
    }
}

/// The hit that begins at this tick: the flags are of what begins then too.
fn hit_from(firsts: Firsts, first: i64, set: &Set) -> FunnelHit
    ensures first { result.first ≡ first }
    ensures below { IsTrue result.below ↔ (firsts.below ≡ Some first) }
    ensures above { IsTrue result.above ↔ (firsts.above ≡ Some first) }
    ensures left { IsTrue result.left ↔ (firsts.left ≡ Some first) }
    ensures right { IsTrue result.right ↔ (firsts.right ≡ Some first) }
    ensures urgent { result.urgent ≡ int_le first set.now.urgent }
{
    FunnelHit {
        first,
        below: firsts.below == Some(first),
        above: firsts.above == Some(first),
        left: firsts.left == Some(first),
        right: firsts.right == Some(first),
        urgent: first <= set.urgent,
    }
}
