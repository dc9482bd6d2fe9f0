//! Area proximity warning: whether a track is hit by an airspace volume.
ghost use Rattle.std.specs.Prelude.{◌≡◌, ℕ, pos, ◌≤ℤ◌, IfOk, OnErr, option_map, unsigned_abs};
ghost use Rattle.tick_sets.specs.Inequalities.{IsLook};
ghost use Rattle.tick_sets.specs.Ticks.{AreTicksWhere};
ghost use Rattle.site_types.specs.Ranges.{IsSet, IsVolume};
ghost use Rattle.track_motion.specs.Motions.{InRange};
ghost use Rattle.airspace_volumes.specs.Apw.{CanBeHit, IsAheadInBand, IsInBand, apw_hit, first_inside as first_tick_inside};

use crate::NoMemory;
use crate::area::Area;
use crate::times::active;
use polygon_plan::inside_ticks;
use site_types::{Net, Set, Volume};
use std::alloc::Global;
use tick_sets::laws::searches_find_the_first;
use tick_sets::{TickHit, Ticks, linear, meet};
use track_motion::Motion;

/// The hit of a track by a volume at a cycle's time, by the track's set. None where it isn't hit. The motion
/// is that at the cycle's time, which counts on over midnight. It takes the bounds of the volume's polygon first: who
/// asks of one volume often has its area made ready once.
pub fn apw(
    alloc: Global,
    m: &Motion,
    v: &Volume,
    time: i64,
    set: &Set,
) -> Result<Option<TickHit>, NoMemory>
    requires motion { InRange m.now }
    requires volume { IsVolume v.now }
    requires time { pos 0 ≤ℤ time }
    requires set { IsSet set.now }
    ensures hit { IfOk result (λ hit. hit ≡ apw_hit m.now v.now time set.now) }
    // Want of memory is answered only where the polygon's edges are looked at.
    ensures memory { OnErr result (CanBeHit m.now v.now time set.now) }
{
    Area::of(v).hit(alloc, m, time, set)
}

impl<'a> Area<'a> {
    /// The hit of a track by the volume at a cycle's time, by the track's set, as `apw` gives it.
    pub fn hit(
        &self,
        alloc: Global,
        m: &Motion,
        time: i64,
        set: &Set,
    ) -> Result<Option<TickHit>, NoMemory>
        requires motion { InRange m.now }
        requires volume { IsVolume self.now }
        requires time { pos 0 ≤ℤ time }
        requires set { IsSet set.now }
        ensures hit { IfOk result (λ hit. hit ≡ apw_hit m.now self.now time set.now) }
        // Want of memory is answered only where the polygon's edges are looked at.
        ensures memory { OnErr result (CanBeHit m.now self.now time set.now) }
    {
        // The proof takes this law; the call does nothing.
        searches_find_the_first();
        let look = set.look_ahead(Net::Apw);
        if self.passes_by(m, look) || !active(self.volume(), time) {
            return Ok(None);
        }
        let Some(first) = first_inside(alloc, m, self.volume(), look)? else {
            return Ok(None);
        };
        Ok(Some(TickHit::from_tick(first, set.urgent)))
    }
}

/// The first tick of `0..=look` at which the track is inside the polygon and from floor to ceiling.
fn first_inside(alloc: Global, m: &Motion, v: &Volume, look: i64) -> Result<Option<i64>, NoMemory>
    requires motion { InRange m.now }
    requires volume { IsVolume v.now }
    requires look { IsLook look }
    ensures first { IfOk result (λ first. first ≡ option_map pos (first_tick_inside m.now v.now (unsigned_abs look))) }
    ensures memory { OnErr result (IsAheadInBand m.now v.now (unsigned_abs look)) }
{
    // The proof takes this law; the call does nothing.
    searches_find_the_first();
    inside_ticks(alloc, v.points.as_slice(), m, ticks_in_band(m, v, look))
}

/// The ticks of `0..=look` at which the track is from floor to ceiling.
fn ticks_in_band(m: &Motion, v: &Volume, look: i64) -> Ticks
    requires motion { InRange m.now }
    requires volume { IsVolume v.now }
    requires look { IsLook look }
    ensures { AreTicksWhere (IsInBand m.now v.now) look result }
{
    let above = linear(i128::from(m.vz), i128::from(m.z - v.floor), look);
    let below = linear(i128::from(-m.vz), i128::from(v.ceiling - m.z), look);
    meet(above, below)
}
