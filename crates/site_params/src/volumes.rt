//! The airspace volumes of a site file, in the order in which their fields are checked.

ghost use Rattle.std.specs.Prelude.{◌≡◌, ◌≢◌, IfOk, IfErr, Ok, Err};
ghost use Rattle.site_fields.specs.declared.fault.SiteFault.TheVariants.{NoMemory};
ghost use Rattle.site_fields.specs.Kinds.{place};
ghost use Rattle.site_types.specs.Ranges.{IsVolume, AreVolumes};
ghost use Rattle.site_params.specs.Volumes.{volume_of, volumes_of};

use site_fields::{Place, ReadEntry, SiteFault, entries_of};
use site_types::{ACTIVE_TIMES, LAYER_FEET, POINTS, VOLUME_COUNT, Volume, Volumes};
use std::alloc::Global;

/// Reads a volume.
#[derive(Clone, Copy)]
struct VolumeFields;

impl ReadEntry for VolumeFields {
    type Entry = Volume;

    ghost reading = { λ _ at. volume_of at };

    ghost IsRead = { λ _ volume. IsVolume volume };

    #[tactic(auto, unfolding(crate::specs::Volumes::volume_of))]
    fn read(&self, alloc: Global, at: &Place) -> Result<Volume, SiteFault> {
        Ok(Volume {
            floor: at.height(41, "floor", LAYER_FEET)?,
            ceiling: at.height(42, "ceiling", LAYER_FEET)?,
            points: at.pairs(alloc, 43, "points", POINTS)?,
            active: at.optional_pairs(alloc, 44, "active", ACTIVE_TIMES)?,
        })
    }
}

/// The airspace volumes.
#[tactic(auto, unfolding(crate::specs::Volumes::volumes_of))]
pub fn volumes_of(alloc: Global, at: &Place) -> Result<Volumes, SiteFault>
    ensures ok { IfOk result (λ found. volumes_of (place at.now) ≡ Ok found) }
    ensures fault { IfErr result (λ e. e ≢ NoMemory → volumes_of (place at.now) ≡ Err e) }
    ensures inside { IfOk result AreVolumes }
{
    let tables = at.optional_tables(alloc, 39, "volume", VOLUME_COUNT)?;
    let volumes = entries_of(alloc, 40, "name", &VolumeFields, &tables)?;
    Ok(Volumes::new(volumes.list))
}
