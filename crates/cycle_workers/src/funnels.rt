//! The hits of rows by approach funnels.
ghost use Rattle.std.specs.Prelude.{◌≡◌, ◌++◌, IfSome, OnOk};
ghost use Rattle.std.specs.List.{filter_map};
ghost use Rattle.alert_states.specs.Figures.{AreInRoom, FitsOctets};
ghost use Rattle.site_types.specs.Ranges.{AreFunnels, IsFunnel, IsSet, IsSite};
ghost use Rattle.track_motion.specs.Motions.{InRange};
ghost use Rattle.cycle_workers.specs.Firsts.{IsSoon};
ghost use Rattle.cycle_workers.specs.Hits.{apm_hit_by, funnel_flags as flags_of, funnel_hit as hit_by, hits_by, numbered, raised as raised_of};
ghost use Rattle.cycle_workers.specs.Movers.{AreMovers};

use crate::NoMemory;
use crate::movers::Mover;
use crate::rows::{number_of, row_figures, row_subject, set_of};
use alert_states::{ABOVE, BELOW, Hit, LEFT, RIGHT, URGENT};
use approach_funnel::{Approach, FunnelHit};
use site_types::{Net, Set, Site};
use tick_sets::laws::searches_find_the_first;

/// A flag, where it is raised.
fn raised(flag: u8, is: bool) -> u8
    ensures { result ≡ raised_of flag is }
{
    if is { flag } else { 0 }
}

/// The flags of a hit.
fn funnel_flags(hit: &FunnelHit) -> u8
    ensures { result ≡ flags_of hit.now }
{
    raised(URGENT, hit.urgent)
        + raised(BELOW, hit.below)
        + raised(ABOVE, hit.above)
        + raised(LEFT, hit.left)
        + raised(RIGHT, hit.right)
}

/// What a hit by the funnel of this number is to alerts.
fn funnel_hit(m: &Mover, object: u16, hit: &FunnelHit) -> Hit
    requires soon { IsSoon hit.now.first }
    ensures hit { result ≡ hit_by m.now object hit.now }
    ensures room { FitsOctets result.figures }
{
    Hit {
        subject: row_subject(Net::Apm, m, object),
        urgent: hit.urgent,
        figures: row_figures(hit.first, funnel_flags(hit)),
    }
}

/// The hit of a row by the funnel of this number, by the row's set.
fn examine_funnel(set: &Set, m: &Mover, object: u16, approach: &Approach<'_>) -> Option<Hit>
    requires set { IsSet set.now }
    requires motion { InRange m.now.motion }
    requires funnel { IsFunnel approach.now }
    ensures hit { result ≡ apm_hit_by set.now m.now (object, approach.now) }
    ensures room { IfSome result (λ h. FitsOctets h.figures) }
{
    // The proof takes this law; the call does nothing.
    searches_find_the_first();
    let hit = approach.hit(&m.motion, set)?;
    Some(funnel_hit(m, object, &hit))
}

/// Adds the hits of a row by all funnels, by the row's set.
fn add_row_hits(
    set: &Set,
    approaches: &[Approach<'_>],
    m: &Mover,
    hits: &mut Vec<Hit>,
) -> Result<(), NoMemory>
    requires set { IsSet set.now }
    requires approaches { AreFunnels approaches.now }
    requires motion { InRange m.now.motion }
    requires room { AreInRoom hits.old.items }
    ensures hits { OnOk result (hits.new.items ≡ hits.old.items ++ filter_map (apm_hit_by set.now m.now) (numbered approaches.now)) }
    ensures room { OnOk result (AreInRoom hits.new.items) }
{
    for i in 0..approaches.len() {
        if let Some(hit) = examine_funnel(set, m, number_of(i), &approaches[i]) {
            hits.push(hit)?;
        }
    }
    Ok(())
}

/// Adds the hits of all rows by all funnels.
pub fn add_funnel_hits(
    site: &Site,
    approaches: &[Approach<'_>],
    movers: &[Mover],
    hits: &mut Vec<Hit>,
) -> Result<(), NoMemory>
    requires site { IsSite site.now }
    requires approaches { AreFunnels approaches.now }
    requires movers { AreMovers site.now movers.now }
    requires room { AreInRoom hits.old.items }
    ensures hits { OnOk result (hits.new.items ≡ hits.old.items ++ hits_by site.now apm_hit_by approaches.now movers.now) }
    ensures room { OnOk result (AreInRoom hits.new.items) }
{
    for m in movers {
        add_row_hits(set_of(site, m), approaches, m, hits)?;
    }
    Ok(())
}
