//! When each net's alerts are on.

ghost use Rattle.std.specs.Prelude.{◌≡◌, ◌≢◌, IfOk, IfErr, Ok, Err, All};
ghost use Rattle.site_fields.specs.declared.fault.SiteFault.TheVariants.{NoMemory};
ghost use Rattle.site_fields.specs.Kinds.{place};
ghost use Rattle.site_types.specs.Ranges.{IsConfirm};
ghost use Rattle.site_params.specs.Confirms.{confirm_of, confirm_list, confirm, confirms_of};

use site_fields::{Field, Place, SiteFault, integers_of, within};
use site_types::{CONFIRM_CYCLES, Confirm, HOLD_CYCLES, Limits};
use std::alloc::Global;

/// When a net's alert is on, by these numbers.
#[tactic(auto, unfolding(crate::specs::Confirms::confirm_of))]
fn confirm_of(at: Field, m: i64, n: i64, hold: i64) -> Result<Confirm, SiteFault>
    ensures value { result ≡ confirm_of at m n hold }
    ensures inside { IfOk result IsConfirm }
{
    let cycles = within(at, CONFIRM_CYCLES, n)?;
    let hits = within(
        at,
        Limits {
            low: 1,
            high: cycles,
        },
        m,
    )?;
    let held = within(at, HOLD_CYCLES, hold)?;
    Ok(Confirm {
        m: hits as u32,
        n: cycles as u32,
        hold: held as u32,
    })
}

/// The same by a list, whose length comes first.
fn confirm_list(at: Field, numbers: &[i64]) -> Result<Confirm, SiteFault>
    ensures value { result ≡ confirm_list at numbers.now }
    ensures inside { IfOk result IsConfirm }
{
    match numbers {
        [m, n, hold] => confirm_of(at, *m, *n, *hold),
        others => Err(SiteFault::Range(at, others.len() as i64)),
    }
}

/// When a net's alert is on.
#[tactic(auto, unfolding(crate::specs::Confirms::confirm))]
fn confirm(alloc: Global, at: &Place, number: u16, key: &str) -> Result<Confirm, SiteFault>
    ensures ok { IfOk result (λ found. confirm number key.now (place at.now) ≡ Ok found) }
    ensures fault { IfErr result (λ e. e ≢ NoMemory → confirm number key.now (place at.now) ≡ Err e) }
    ensures inside { IfOk result IsConfirm }
{
    let numbers = integers_of(alloc, at.field(number), at.required(number, key)?)?;
    confirm_list(at.field(number), &numbers)
}

/// When each net's alerts are on.
#[tactic(auto, unfolding(crate::specs::Confirms::confirms_of))]
pub fn confirms_of(alloc: Global, at: &Place) -> Result<[Confirm; 4], SiteFault>
    ensures ok { IfOk result (λ found. confirms_of (place at.now) ≡ Ok found) }
    ensures fault { IfErr result (λ e. e ≢ NoMemory → confirms_of (place at.now) ≡ Err e) }
    ensures inside { IfOk result (All IsConfirm) }
{
    let at = at.table(10, "confirm")?;
    let stca = confirm(alloc, &at, 11, "stca")?;
    let msaw = confirm(alloc, &at, 12, "msaw")?;
    let apw = confirm(alloc, &at, 13, "apw")?;
    let apm = confirm(alloc, &at, 14, "apm")?;
    Ok([stca, msaw, apw, apm])
}
