//! The parameter sets of a site file, in the order in which their fields are checked.

ghost use Rattle.std.specs.Prelude.{◌≡◌, ◌≢◌, IfOk, IfErr, Ok, Err, All};
ghost use Rattle.site_fields.specs.declared.fault.SiteFault.TheVariants.{NoMemory};
ghost use Rattle.site_fields.specs.Kinds.{place};
ghost use Rattle.site_types.specs.Limits.{IsIn};
ghost use Rattle.site_types.specs.Ranges.{IsSet};
ghost use Rattle.site_params.specs.Parts.{IsNamedSets};
ghost use Rattle.site_params.specs.Sets.{switches_of, looks_of, set_of, sets_of};

use site_fields::{Names, Place, ReadEntry, SiteFault, entries_of};
use site_types::{
    LOOK_SECONDS, SEPARATION_FEET, SEPARATION_METRES, SET_COUNT, SPLIT_FEET, Set, Sets,
    TICKS_PER_SECOND,
};
use std::alloc::Global;

/// The parameter sets, and their names in the same order.
#[derive(Drop)]
pub struct NamedSets<'a> {
    pub sets: Sets,
    pub names: Names<'a>,
}

/// Which nets a set enables.
#[tactic(auto, unfolding(crate::specs::Sets::switches_of))]
fn switches_of(at: &Place) -> Result<[bool; 4], SiteFault>
    ensures { result ≡ switches_of (place at.now) }
{
    let stca = at.boolean(17, "stca")?;
    let msaw = at.boolean(18, "msaw")?;
    let apw = at.boolean(19, "apw")?;
    let apm = at.boolean(20, "apm")?;
    Ok([stca, msaw, apw, apm])
}

/// How far each net looks ahead.
#[tactic(auto, unfolding(crate::specs::Sets::looks_of))]
fn looks_of(at: &Place) -> Result<[i64; 4], SiteFault>
    ensures value { result ≡ looks_of (place at.now) }
    ensures inside { IfOk result (All (IsIn LOOK_SECONDS TICKS_PER_SECOND)) }
{
    let stca = at.seconds(21, "look_stca", LOOK_SECONDS)?;
    let msaw = at.seconds(22, "look_msaw", LOOK_SECONDS)?;
    let apw = at.seconds(23, "look_apw", LOOK_SECONDS)?;
    let apm = at.seconds(24, "look_apm", LOOK_SECONDS)?;
    Ok([stca, msaw, apw, apm])
}

/// A parameter set, besides its name.
#[tactic(auto, unfolding(crate::specs::Sets::set_of))]
fn set_of(at: &Place) -> Result<Set, SiteFault>
    ensures value { result ≡ set_of (place at.now) }
    ensures inside { IfOk result IsSet }
{
    Ok(Set {
        enabled: switches_of(at)?,
        look: looks_of(at)?,
        h: at.metres(25, "h", SEPARATION_METRES)?,
        v_low: at.height(26, "v_low", SEPARATION_FEET)?,
        v_high: at.height(27, "v_high", SEPARATION_FEET)?,
        split: at.height(28, "split", SPLIT_FEET)?,
        now_h: at.metres(29, "now_h", SEPARATION_METRES)?,
        now_v_low: at.height(30, "now_v_low", SEPARATION_FEET)?,
        now_v_high: at.height(31, "now_v_high", SEPARATION_FEET)?,
        urgent: at.seconds(32, "urgent", LOOK_SECONDS)?,
    })
}

/// Reads a parameter set.
#[derive(Clone, Copy)]
struct SetFields;

impl ReadEntry for SetFields {
    type Entry = Set;

    ghost reading = { λ _ at. set_of at };

    ghost IsRead = { λ _ set. IsSet set };

    fn read(&self, _alloc: Global, at: &Place) -> Result<Set, SiteFault> {
        set_of(at)
    }
}

/// The parameter sets.
#[tactic(auto, unfolding(crate::specs::Sets::sets_of))]
pub fn sets_of<'a>(alloc: Global, at: &Place<'a>) -> Result<NamedSets<'a>, SiteFault>
    ensures ok { IfOk result (λ found. sets_of (place at.now) ≡ Ok found) }
    ensures fault { IfErr result (λ e. e ≢ NoMemory → sets_of (place at.now) ≡ Err e) }
    ensures inside { IfOk result IsNamedSets }
{
    let tables = at.tables(alloc, 15, "set", SET_COUNT)?;
    let sets = entries_of(alloc, 16, "name", &SetFields, &tables)?;
    Ok(NamedSets {
        sets: Sets::new(sets.list),
        names: sets.names,
    })
}
