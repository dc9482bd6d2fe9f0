//! The hits of rows by the terrain.
ghost use Rattle.std.specs.Prelude.{◌≡◌, [], ◌∷◌, ◌++◌, IfSome, OnOk};
ghost use Rattle.alert_states.specs.Figures.{AreInRoom, FitsOctets};
ghost use Rattle.site_types.specs.Ranges.{IsSet, IsSite};
ghost use Rattle.terrain_file.specs.Ranges.{IsTerrain};
ghost use Rattle.track_motion.specs.Motions.{InRange};
ghost use Rattle.cycle_workers.specs.Hits.{hits_by, msaw_hit_by};
ghost use Rattle.cycle_workers.specs.Movers.{AreMovers};

use crate::NoMemory;
use crate::movers::Mover;
use crate::rows::{set_of, tick_hit};
use alert_states::Hit;
use site_types::{Net, Set, Site};
use terrain_cells::Ground;
use tick_sets::laws::searches_find_the_first;

/// The hit of a row by the terrain, by the row's set.
fn examine_ground(set: &Set, m: &Mover, ground: &Ground<'_>) -> Option<Hit>
    requires set { IsSet set.now }
    requires motion { InRange m.now.motion }
    requires terrain { IsTerrain ground.now }
    ensures hit { result ≡ msaw_hit_by set.now m.now (0, ground.now) }
    ensures room { IfSome result (λ h. FitsOctets h.figures) }
{
    // The proof takes this law; the call does nothing.
    searches_find_the_first();
    let hit = ground.hit(&m.motion, set)?;
    Some(tick_hit(Net::Msaw, m, 0, hit))
}

/// Adds the hits of all rows by the terrain.
pub fn add_ground_hits(
    site: &Site,
    ground: &Ground<'_>,
    movers: &[Mover],
    hits: &mut Vec<Hit>,
) -> Result<(), NoMemory>
    requires site { IsSite site.now }
    requires terrain { IsTerrain ground.now }
    requires movers { AreMovers site.now movers.now }
    requires room { AreInRoom hits.old.items }
    ensures hits { OnOk result (hits.new.items ≡ hits.old.items ++ hits_by site.now msaw_hit_by (ground.now ∷ []) movers.now) }
    ensures room { OnOk result (AreInRoom hits.new.items) }
{
    for m in movers {
        if let Some(hit) = examine_ground(set_of(site, m), m, ground) {
            hits.push(hit)?;
        }
    }
    Ok(())
}
