//! The hits of rows by airspace volumes.
ghost use Rattle.std.specs.Prelude.{◌≡◌, ◌++◌, pos, ◌≤ℤ◌, IfOk, IfSome, OnOk};
ghost use Rattle.std.specs.List.{filter_map};
ghost use Rattle.alert_states.specs.Figures.{AreInRoom, FitsOctets};
ghost use Rattle.site_types.specs.Ranges.{AreVolumes, IsSet, IsSite, IsVolume};
ghost use Rattle.track_motion.specs.Motions.{InRange};
ghost use Rattle.cycle_workers.specs.Hits.{apw_hit_by, hits_by, numbered};
ghost use Rattle.cycle_workers.specs.Movers.{AreMovers};

use crate::NoMemory;
use crate::movers::Mover;
use crate::rows::{number_of, set_of, tick_hit};
use airspace_volumes::Area;
use alert_states::Hit;
use site_types::{Net, Set, Site};
use std::alloc::Global;
use tick_sets::laws::searches_find_the_first;

/// The hit of a row by the volume of this number, by the row's set.
fn examine_volume(
    alloc: Global,
    set: &Set,
    time: i64,
    m: &Mover,
    object: u16,
    area: &Area<'_>,
) -> Result<Option<Hit>, NoMemory>
    requires set { IsSet set.now }
    requires time { pos 0 ≤ℤ time }
    requires motion { InRange m.now.motion }
    requires volume { IsVolume area.now }
    ensures hit { IfOk result (λ hit. hit ≡ apw_hit_by time set.now m.now (object, area.now)) }
    ensures room { IfOk result (λ hit. IfSome hit (λ h. FitsOctets h.figures)) }
{
    // The proof takes this law; the call does nothing.
    searches_find_the_first();
    let Some(hit) = area.hit(alloc, &m.motion, time, set)? else {
        return Ok(None);
    };
    Ok(Some(tick_hit(Net::Apw, m, object, hit)))
}

/// Adds the hits of a row by all volumes, by the row's set.
fn add_row_hits(
    alloc: Global,
    set: &Set,
    areas: &[Area<'_>],
    time: i64,
    m: &Mover,
    hits: &mut Vec<Hit>,
) -> Result<(), NoMemory>
    requires set { IsSet set.now }
    requires areas { AreVolumes areas.now }
    requires time { pos 0 ≤ℤ time }
    requires motion { InRange m.now.motion }
    requires room { AreInRoom hits.old.items }
    ensures hits { OnOk result (hits.new.items ≡ hits.old.items ++ filter_map (apw_hit_by time set.now m.now) (numbered areas.now)) }
    ensures room { OnOk result (AreInRoom hits.new.items) }
{
    for i in 0..areas.len() {
        if let Some(hit) = examine_volume(alloc, set, time, m, number_of(i), &areas[i])? {
            hits.push(hit)?;
        }
    }
    Ok(())
}

/// Adds the hits of all rows by all volumes.
pub fn add_volume_hits(
    alloc: Global,
    site: &Site,
    areas: &[Area<'_>],
    time: i64,
    movers: &[Mover],
    hits: &mut Vec<Hit>,
) -> Result<(), NoMemory>
    requires site { IsSite site.now }
    requires areas { AreVolumes areas.now }
    requires time { pos 0 ≤ℤ time }
    requires movers { AreMovers site.now movers.now }
    requires room { AreInRoom hits.old.items }
    ensures hits { OnOk result (hits.new.items ≡ hits.old.items ++ hits_by site.now (apw_hit_by time) areas.now movers.now) }
    ensures room { OnOk result (AreInRoom hits.new.items) }
{
    for m in movers {
        add_row_hits(alloc, set_of(site, m), areas, time, m, hits)?;
    }
    Ok(())
}
