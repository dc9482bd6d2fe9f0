//! What becomes of a pair.
ghost use Rattle.std.specs.Prelude.{◌≡◌, ◌+◌, Some, IfSome};
ghost use Rattle.alert_states.specs.Figures.{FitsOctets};
ghost use Rattle.site_types.specs.Ranges.{IsSet, IsSite};
ghost use Rattle.stca_fine.specs.Stca.{IsInRoom};
ghost use Rattle.cycle_workers.specs.Hits.{figures as figures_of, flags as flags_of, hit_of, pair_hit as hit_in, pair_set as set_in};
ghost use Rattle.cycle_workers.specs.Movers.{IsMover, IsSetOf};

use crate::movers::Mover;
use crate::rows::set_of;
use alert_states::{CURRENT_PROXIMITY, Hit, HitData, Subject, URGENT};
use outside_io::Steps;
use site_types::{Net, Set, Site};
use stca_fine::{StcaHit, examine};
use std::sync::ledger::Ledger;

/// The flags of a hit.
fn flags(hit: &StcaHit) -> u8
    ensures { result ≡ flags_of hit.now }
{
    let urgent = if hit.urgent { URGENT } else { 0 };
    let current = if hit.current { CURRENT_PROXIMITY } else { 0 };
    urgent + current
}

/// The figures of a hit as its message tells them.
fn figures(set: &Set, hit: &StcaHit) -> HitData
    requires set { IsSet set.now }
    requires room { IsInRoom set.now hit.now }
    ensures figures { result ≡ figures_of hit.now }
    ensures room { FitsOctets result }
{
    HitData {
        first: hit.first as u32,
        closest: hit.closest as u32,
        chs: hit.chs,
        mhs: hit.mhs,
        cvs: hit.cvs,
        mvs: hit.mvs,
        flags: flags(hit),
    }
}

/// What a hit of a pair is to alerts.
fn pair_hit(set: &Set, a: &Mover, b: &Mover, hit: &StcaHit) -> Hit
    requires set { IsSet set.now }
    requires room { IsInRoom set.now hit.now }
    ensures hit { result ≡ hit_in a.now b.now hit.now }
    ensures room { FitsOctets result.figures }
{
    Hit {
        subject: Subject {
            net: Net::Stca,
            key: a.key,
            other: b.key,
            object: 0,
        },
        urgent: hit.urgent,
        figures: figures(set, hit),
    }
}

/// The parameter set of a pair, of which the first one's set is this.
fn pair_set<'a>(site: &'a Site, set: &'a Set, a: &Mover, b: &Mover) -> &'a Set
    requires site { IsSite site.now }
    requires set { IsSetOf site.now a.now set.now }
    requires b { IsMover site.now b.now }
    ensures set { set_in site.now a.now b.now ≡ Some result.now }
    ensures range { IsSet result.now }
{
    if a.set <= b.set { set } else { set_of(site, b) }
}

/// The hit of a pair, a before b in key order, by the set of the first and the second's own. It takes one step.
pub fn examine_pair<L: Ledger>(
    site: &Site,
    set: &Set,
    a: &Mover,
    b: &Mover,
    steps: &mut Steps<L>,
) -> Option<Hit>
    requires site { IsSite site.now }
    requires set { IsSetOf site.now a.now set.now }
    requires a { IsMover site.now a.now }
    requires b { IsMover site.now b.now }
    ensures hit { result ≡ hit_of site.now a.now b.now }
    ensures room { IfSome result (λ h. FitsOctets h.figures) }
    ensures step { steps.new ≡ steps.old + 1 }
{
    let set = pair_set(site, set, a, b);
    let hit = examine(&a.motion, &b.motion, set, steps)?;
    Some(pair_hit(set, a, b, &hit))
}
