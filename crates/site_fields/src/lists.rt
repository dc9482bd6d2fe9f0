//! Lists of a site file.

ghost use Rattle.std.specs.Prelude.{◌≡◌, ◌≢◌, ◌≤◌, IfOk, IfErr, Ok, Err, All, map, option_map, length, vec_len};
ghost use Rattle.toml.specs.Data.{as_integer, as_table};
ghost use Rattle.toml.specs.View.{view};
ghost use Rattle.site_fields.specs.declared.fault.SiteFault.TheVariants.{NoMemory};
ghost use Rattle.site_fields.specs.Kinds.{reading_map};
ghost use Rattle.site_types.specs.Limits.{AreNumbers};
ghost use Rattle.site_fields.specs.Lists.{each, of_kind, as_parts, parts, table_views, list_of, number_in, numbers_of};

use crate::fault::{Field, SiteFault};
use crate::ranges::within;
use site_types::{Limits, ListLimits};
use std::alloc::Global;
use toml::{Table, Value};

/// The parts of a list, if it is one.
pub fn as_parts(value: &Value) -> Option<&[Value]>
    ensures { option_map (λ parts. map view parts.now) result ≡ as_parts (view value.now) }
{
    match value.as_array() {
        None => None,
        Some(parts) => Some(parts.as_slice()),
    }
}

/// The parts of a list.
pub fn parts(at: Field, value: &Value) -> Result<&[Value], SiteFault>
    ensures { reading_map (λ parts. map view parts.now) result ≡ parts at (view value.now) }
{
    as_parts(value).ok_or(SiteFault::Kind(at))
}

/// These parts as integers.
#[tactic(auto, using(crate::proofs::Each::each_steps), unfolding(crate::specs::Lists::each))]
fn as_integers(alloc: Global, at: Field, parts: &[Value]) -> Result<Vec<i64>, SiteFault>
    ensures ok { IfOk result (λ numbers. each (of_kind as_integer at) (map view parts.now) ≡ Ok numbers.items) }
    ensures fault { IfErr result (λ e. e ≢ NoMemory → each (of_kind as_integer at) (map view parts.now) ≡ Err e) }
{
    let mut numbers = Vec::new(alloc);
    for part in parts {
        numbers.push(part.as_integer().ok_or(SiteFault::Kind(at))?)?;
    }
    Ok(numbers)
}

/// These parts as tables.
#[tactic(auto, using(crate::proofs::Each::each_seen_steps), unfolding(crate::specs::Lists::each))]
fn as_tables<'a>(alloc: Global, at: Field, parts: &'a [Value]) -> Result<Vec<&'a Table>, SiteFault>
    ensures ok { IfOk result (λ tables. each (of_kind as_table at) (map view parts.now) ≡ Ok (table_views tables.items)) }
    ensures fault { IfErr result (λ e. e ≢ NoMemory → each (of_kind as_table at) (map view parts.now) ≡ Err e) }
{
    let mut tables = Vec::new(alloc);
    for part in parts {
        tables.push(part.as_table().ok_or(SiteFault::Kind(at))?)?;
    }
    Ok(tables)
}

/// A list of integers.
#[tactic(auto, unfolding(crate::specs::Lists::list_of))]
pub fn integers_of(alloc: Global, at: Field, value: &Value) -> Result<Vec<i64>, SiteFault>
    ensures ok { IfOk result (λ numbers. list_of as_integer at (view value.now) ≡ Ok numbers.items) }
    ensures fault { IfErr result (λ e. e ≢ NoMemory → list_of as_integer at (view value.now) ≡ Err e) }
{
    as_integers(alloc, at, parts(at, value)?)
}

/// A list of tables.
#[tactic(auto, unfolding(crate::specs::Lists::list_of))]
pub fn tables_of<'a>(
    alloc: Global,
    at: Field,
    value: &'a Value,
) -> Result<Vec<&'a Table>, SiteFault>
    ensures ok { IfOk result (λ tables. list_of as_table at (view value.now) ≡ Ok (table_views tables.items)) }
    ensures fault { IfErr result (λ e. e ≢ NoMemory → list_of as_table at (view value.now) ≡ Err e) }
{
    as_tables(alloc, at, parts(at, value)?)
}

/// A number in range.
#[tactic(auto, unfolding(crate::specs::Lists::number_in))]
fn number_in(limits: ListLimits, at: Field, number: i64) -> Result<u16, SiteFault>
    ensures value { result ≡ number_in limits at number }
    ensures inside { IfOk result (λ found. found ≤ limits.highest) }
{
    let range = Limits {
        low: 0,
        high: i32::from(limits.highest),
    };
    Ok(within(at, range, number)? as u16)
}

/// These numbers in range.
#[tactic(auto, using(crate::proofs::Each::each_number_steps), unfolding(crate::specs::Lists::each))]
fn numbers_in(
    alloc: Global,
    limits: ListLimits,
    at: Field,
    numbers: &[i64],
) -> Result<Vec<u16>, SiteFault>
    ensures ok { IfOk result (λ found. each (number_in limits at) numbers.now ≡ Ok found.items) }
    ensures fault { IfErr result (λ e. e ≢ NoMemory → each (number_in limits at) numbers.now ≡ Err e) }
    ensures inside { IfOk result (λ found. All (λ number. number ≤ limits.highest) found.items) }
    ensures count { IfOk result (λ found. vec_len found ≡ length numbers.now) }
{
    let mut found = Vec::with_capacity(alloc, numbers.len())?;
    for number in numbers {
        found.push(number_in(limits, at, *number)?)?;
    }
    Ok(found)
}

/// A list of numbers in range, so many.
#[tactic(auto, unfolding(crate::specs::Lists::numbers_of))]
pub fn numbers_of(
    alloc: Global,
    limits: ListLimits,
    at: Field,
    value: &Value,
) -> Result<Vec<u16>, SiteFault>
    ensures ok { IfOk result (λ found. numbers_of limits at (view value.now) ≡ Ok found.items) }
    ensures fault { IfErr result (λ e. e ≢ NoMemory → numbers_of limits at (view value.now) ≡ Err e) }
    ensures inside { IfOk result (λ found. AreNumbers limits found.items) }
{
    let numbers = integers_of(alloc, at, value)?;
    within(at, limits.count, numbers.len() as i64)?;
    numbers_in(alloc, limits, at, &numbers)
}
