//! All hits of a cycle.
ghost use Rattle.std.specs.Prelude.{◌≡◌, ◌+◌, ◌^◌, ◌≤◌, ◌++◌, length, pos, ◌≤ℤ◌, IfOk, OnOk};
ghost use Rattle.std.specs.List.{filter_map};
ghost use Rattle.alert_states.specs.Figures.{AreInRoom};
ghost use Rattle.alert_states.specs.Subjects.{AreInOrder};
ghost use Rattle.site_types.specs.Ranges.{IsSite};
ghost use Rattle.terrain_file.specs.Ranges.{IsTerrain};
ghost use Rattle.cycle_workers.specs.Eligible.{enabled as those};
ghost use Rattle.cycle_workers.specs.Hits.{count_examined, count_pairs, hit_of, hits_among, hits_of, stca_hits};
ghost use Rattle.cycle_workers.specs.Movers.{AreMovers, IsCycleTable, IsMover};
ghost use Rattle.cycle_workers.specs.Settings.{setting};

use crate::NoMemory;
use crate::funnels::add_funnel_hits;
use crate::ground::add_ground_hits;
use crate::movers::{Mover, enabled, watched};
use crate::nets::Nets;
use crate::pair::examine_pair;
use crate::rows::set_of;
use crate::volumes::add_volume_hits;
use alert_states::Hit;
use outside_io::Steps;
use site_types::{Net, Site};
use std::alloc::Global;
use std::sync::ledger::Ledger;
use terrain_file::Terrain;
use track_table::Frozen;

/// The hits of a table, and how many pairs were examined for them.
#[derive(Debug, Drop)]
pub struct Hits {
    pub hits: Vec<Hit>,
    pub examined: u64,
}

/// Adds the hits of a row with the rows after it.
fn add_hits<L: Ledger>(
    site: &Site,
    a: &Mover,
    others: &[Mover],
    hits: &mut Vec<Hit>,
    steps: &mut Steps<L>,
) -> Result<(), NoMemory>
    requires site { IsSite site.now }
    requires a { IsMover site.now a.now }
    requires others { AreMovers site.now others.now }
    requires room { AreInRoom hits.old.items }
    ensures hits { OnOk result (hits.new.items ≡ hits.old.items ++ filter_map (hit_of site.now a.now) others.now) }
    ensures room { OnOk result (AreInRoom hits.new.items) }
    ensures counted { OnOk result (steps.new ≡ steps.old + length others.now) }
    ensures later { steps.old ≤ steps.new }
{
    let set = set_of(site, a);
    for b in others {
        if let Some(hit) = examine_pair(site, set, a, b, steps) {
            hits.push(hit)?;
        }
    }
    Ok(())
}

/// The hits of all pairs, and how many pairs there are.
fn pair_hits<L: Ledger>(
    alloc: Global,
    site: &Site,
    movers: &[Mover],
    steps: &mut Steps<L>,
) -> Result<Hits, NoMemory>
    requires site { IsSite site.now }
    requires movers { AreMovers site.now movers.now }
    requires few { length movers.now ≤ 2 ^ 32 }
    ensures hits { IfOk result (λ found. found.hits.items ≡ stca_hits site.now movers.now) }
    ensures room { IfOk result (λ found. AreInRoom found.hits.items) }
    ensures examined { IfOk result (λ found. found.examined ≡ count_pairs movers.now) }
    ensures counted { IfOk result (λ found. steps.new ≡ steps.old + found.examined) }
    ensures later { steps.old ≤ steps.new }
{
    let mut hits = Vec::new(alloc);
    let mut examined = 0;
    for i in 0..movers.len() {
        let others = &movers[i + 1..];
        add_hits(site, &movers[i], others, &mut hits, steps)?;
        examined += others.len() as u64;
    }
    Ok(Hits { hits, examined })
}

/// Adds the hits of the rows by the terrain, by the volumes and by the funnels.
fn add_row_hits(
    alloc: Global,
    nets: &Nets<'_>,
    time: i64,
    all: &[Mover],
    hits: &mut Vec<Hit>,
) -> Result<(), NoMemory>
    requires time { pos 0 ≤ℤ time }
    requires all { AreMovers nets.now.site all.now }
    requires room { AreInRoom hits.old.items }
    ensures hits { OnOk result (hits.new.items ≡ hits.old.items ++ hits_among nets.now time (λ net. those nets.now.site net all.now)) }
    ensures room { OnOk result (AreInRoom hits.new.items) }
{
    let site = nets.site();
    let over = enabled(alloc, site, Net::Msaw, all)?;
    add_ground_hits(site, nets.ground(), &over, hits)?;
    let near = enabled(alloc, site, Net::Apw, all)?;
    add_volume_hits(alloc, site, nets.areas(), time, &near, hits)?;
    let landing = enabled(alloc, site, Net::Apm, all)?;
    add_funnel_hits(site, nets.approaches(), &landing, hits)?;
    Ok(())
}

/// All hits of a table in the order of subjects. It examines each pair of rows that are eligible for STCA once,
/// in one step. It makes the site's nets ready first: who asks of many tables has them made ready once.
pub fn hits_one<L: Ledger>(
    alloc: Global,
    f: &Frozen,
    site: &Site,
    terrain: &Terrain,
    steps: &mut Steps<L>,
) -> Result<Hits, NoMemory>
    requires table { IsCycleTable f.now }
    requires site { IsSite site.now }
    requires terrain { IsTerrain terrain.now }
    ensures hits { IfOk result (λ found. found.hits.items ≡ hits_of (setting site.now terrain.now) f.now) }
    ensures order { IfOk result (λ found. AreInOrder found.hits.items) }
    ensures room { IfOk result (λ found. AreInRoom found.hits.items) }
    ensures examined { IfOk result (λ found. found.examined ≡ count_examined site.now f.now) }
    ensures counted { IfOk result (λ found. steps.new ≡ steps.old + found.examined) }
    ensures later { steps.old ≤ steps.new }
{
    Nets::of(alloc, site, terrain)?.hits(alloc, f, steps)
}

impl<'a> Nets<'a> {
    /// All hits of a table, as `hits_one` gives them.
    pub fn hits<L: Ledger>(
        &self,
        alloc: Global,
        f: &Frozen,
        steps: &mut Steps<L>,
    ) -> Result<Hits, NoMemory>
        requires { IsCycleTable f.now }
        ensures hits { IfOk result (λ found. found.hits.items ≡ hits_of self.now f.now) }
        ensures order { IfOk result (λ found. AreInOrder found.hits.items) }
        ensures room { IfOk result (λ found. AreInRoom found.hits.items) }
        ensures examined { IfOk result (λ found. found.examined ≡ count_examined self.now.site f.now) }
        ensures counted { IfOk result (λ found. steps.new ≡ steps.old + found.examined) }
        ensures later { steps.old ≤ steps.new }
    {
        let site = self.site();
        let all = watched(alloc, f, site)?;
        let pairs = enabled(alloc, site, Net::Stca, &all)?;
        let mut found = pair_hits(alloc, site, &pairs, steps)?;
        add_row_hits(alloc, self, f.time, &all, &mut found.hits)?;
        Ok(found)
    }
}
