//! The regions of a site file, in the order in which their fields are checked.

ghost use Rattle.std.specs.Prelude.{◌≡◌, ◌≢◌, length, IfOk, IfErr, Ok, Err};
ghost use Rattle.site_fields.specs.declared.fault.SiteFault.TheVariants.{NoMemory};
ghost use Rattle.site_fields.specs.Kinds.{place};
ghost use Rattle.site_types.specs.Ranges.{IsRegion, AreRegions};
ghost use Rattle.site_params.specs.Regions.{region_of, regions_of};

use site_fields::{Names, Place, ReadEntry, SiteFault, entries_of};
use site_types::{LAYER_FEET, POINTS, REGION_COUNT, Region, Regions};
use std::alloc::Global;

/// Reads a region, where the sets have these names.
#[derive(Clone, Copy)]
struct RegionFields<'a> {
    sets: &'a Names<'a>,
}

impl<'a> ReadEntry for RegionFields<'a> {
    type Entry = Region;

    ghost reading = { λ fields at. region_of fields.sets.now at };

    ghost IsRead = { λ fields region. IsRegion (length fields.sets.now) region };

    #[tactic(auto, unfolding(crate::specs::Regions::region_of))]
    fn read(&self, alloc: Global, at: &Place) -> Result<Region, SiteFault> {
        Ok(Region {
            set: at.named_entry(35, "set", self.sets)?,
            floor: at.height(36, "floor", LAYER_FEET)?,
            ceiling: at.height(37, "ceiling", LAYER_FEET)?,
            points: at.pairs(alloc, 38, "points", POINTS)?,
        })
    }
}

/// The regions, where the sets have these names.
#[tactic(auto, unfolding(crate::specs::Regions::regions_of))]
pub fn regions_of(alloc: Global, sets: &Names, at: &Place) -> Result<Regions, SiteFault>
    ensures ok { IfOk result (λ found. regions_of sets.now (place at.now) ≡ Ok found) }
    ensures fault { IfErr result (λ e. e ≢ NoMemory → regions_of sets.now (place at.now) ≡ Err e) }
    ensures inside { IfOk result (AreRegions (length sets.now)) }
{
    let tables = at.optional_tables(alloc, 33, "region", REGION_COUNT)?;
    let regions = entries_of(alloc, 34, "name", &RegionFields { sets }, &tables)?;
    Ok(Regions::new(regions.list))
}
