//! The fields of a site file in the order in which they are checked, each with its number, its key, its kind
//! and its range.

ghost use Rattle.std.specs.Prelude.{◌≡◌, ◌≢◌, IfOk, IfErr, IfSome, Ok, Err};
ghost use Rattle.site_fields.specs.declared.fault.SiteFault.TheVariants.{NoMemory};
ghost use Rattle.site_fields.specs.Kinds.{place};
ghost use Rattle.site_types.specs.Ranges.{IsCodes, IsFileName, IsSite};
ghost use Rattle.site_params.specs.Parts.{IsGeneral};
ghost use Rattle.site_params.specs.Fields.{general_of, codes_of, terrain_of, site_of};

use crate::confirms::confirms_of;
use crate::funnels::funnels_of;
use crate::regions::regions_of;
use crate::sets::sets_of;
use crate::volumes::volumes_of;
use site_fields::{Place, SiteFault, numbers_of};
use site_types::{
    CODES, CYCLE_SECONDS, Codes, DAY_SECONDS, FILE_NAME_LENGTH, FileName, Limits, QNH_FEET, Site,
};
use std::alloc::Global;

/// The version of the site file.
const VERSION: Limits = Limits { low: 1, high: 1 };

/// The fields of the document that stand alone.
#[derive(Clone, Copy)]
pub struct General {
    sac: u8,
    sic: u8,
    start: i64,
    period: i64,
    timeout: i64,
    qnh: i32,
}

/// The source, the times and the correction.
#[tactic(auto, unfolding(crate::specs::Fields::general_of))]
fn general_of(at: &Place) -> Result<General, SiteFault>
    ensures value { result ≡ general_of (place at.now) }
    ensures inside { IfOk result IsGeneral }
{
    at.optional_integer(1, "version", VERSION)?;
    let sac = at.octet(2, "sac")?;
    let sic = at.octet(3, "sic")?;
    let start = at.seconds(4, "start", DAY_SECONDS)?;
    let period = at.seconds(5, "period", CYCLE_SECONDS)?;
    let timeout = at.seconds(6, "timeout", CYCLE_SECONDS)?;
    let qnh = at.optional_levels(7, "qnh", QNH_FEET)?;
    Ok(General {
        sac,
        sic,
        start,
        period,
        timeout,
        qnh: qnh.unwrap_or(0),
    })
}

/// Mode 3/A codes, none where nothing stands there.
#[tactic(auto, unfolding(crate::specs::Fields::codes_of))]
fn codes_of(alloc: Global, at: &Place) -> Result<Codes, SiteFault>
    ensures ok { IfOk result (λ found. codes_of (place at.now) ≡ Ok found) }
    ensures fault { IfErr result (λ e. e ≢ NoMemory → codes_of (place at.now) ≡ Err e) }
    ensures inside { IfOk result IsCodes }
{
    match at.get("codes") {
        None => Ok(Codes::new(Vec::new(alloc))),
        Some(value) => Ok(Codes::new(numbers_of(alloc, CODES, at.field(8), value)?)),
    }
}

/// The name of the terrain's file, where there is one.
#[tactic(auto, unfolding(crate::specs::Fields::terrain_of))]
fn terrain_of(alloc: Global, at: &Place) -> Result<Option<FileName>, SiteFault>
    ensures ok { IfOk result (λ found. terrain_of (place at.now) ≡ Ok found) }
    ensures fault { IfErr result (λ e. e ≢ NoMemory → terrain_of (place at.now) ≡ Err e) }
    ensures inside { IfOk result (λ found. IfSome found IsFileName) }
{
    match at.optional_text(9, "terrain", FILE_NAME_LENGTH)? {
        None => Ok(None),
        Some(name) => Ok(Some(FileName::new(alloc, name)?)),
    }
}

/// What the whole document sets.
#[tactic(auto, unfolding(crate::specs::Fields::site_of))]
pub fn site_of(alloc: Global, at: &Place) -> Result<Site, SiteFault>
    ensures ok { IfOk result (λ found. site_of (place at.now) ≡ Ok found) }
    ensures fault { IfErr result (λ e. e ≢ NoMemory → site_of (place at.now) ≡ Err e) }
    ensures inside { IfOk result IsSite }
{
    let general = general_of(at)?;
    let codes = codes_of(alloc, at)?;
    let terrain = terrain_of(alloc, at)?;
    let confirm = confirms_of(alloc, at)?;
    let named = sets_of(alloc, at)?;
    let regions = regions_of(alloc, &named.names, at)?;
    let volumes = volumes_of(alloc, at)?;
    let funnels = funnels_of(alloc, at)?;
    Ok(Site {
        sac: general.sac,
        sic: general.sic,
        start: general.start,
        period: general.period,
        timeout: general.timeout,
        qnh: general.qnh,
        codes,
        terrain,
        confirm,
        sets: named.sets,
        regions,
        volumes,
        funnels,
    })
}
