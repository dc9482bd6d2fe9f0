//! Lists of pairs of a site file: the points of polygons, and the times of volumes.

ghost use Rattle.std.specs.Prelude.{◌≡◌, ◌≢◌, pos, ◌*ℤ◌, IfOk, IfErr, IfSome, Ok, Err, All, map, length, vec_len};
ghost use Rattle.toml.specs.View.{view};
ghost use Rattle.site_fields.specs.declared.fault.SiteFault.TheVariants.{NoMemory};
ghost use Rattle.site_fields.specs.Kinds.{place};
ghost use Rattle.site_types.specs.Limits.{IsIn, IsPair, IsPairs};
ghost use Rattle.site_fields.specs.Lists.{each, of_kind, list_of};
ghost use Rattle.site_fields.specs.Pairs.{two, as_pair, in_units, pair, pairs_of, pairs, optional_pairs};

use crate::fault::{Field, SiteFault};
use crate::kinds::Place;
use crate::lists::{as_parts, parts};
use crate::ranges::within;
use site_types::{PairLimits, Pairs};
use std::alloc::Global;
use toml::Value;

/// Two integers, if these are two.
fn two(parts: &[Value]) -> Option<(i64, i64)>
    ensures { result ≡ two (map view parts.now) }
{
    match parts {
        [first, second] => Some((first.as_integer()?, second.as_integer()?)),
        _ => None,
    }
}

/// A list of two integers.
fn as_pair(value: &Value) -> Option<(i64, i64)>
    ensures { result ≡ as_pair (view value.now) }
{
    two(as_parts(value)?)
}

/// These parts as pairs.
#[tactic(auto, using(crate::proofs::Each::each_steps), unfolding(crate::specs::Lists::each))]
fn as_pairs(alloc: Global, at: Field, parts: &[Value]) -> Result<Vec<(i64, i64)>, SiteFault>
    ensures ok { IfOk result (λ pairs. each (of_kind as_pair at) (map view parts.now) ≡ Ok pairs.items) }
    ensures fault { IfErr result (λ e. e ≢ NoMemory → each (of_kind as_pair at) (map view parts.now) ≡ Err e) }
{
    let mut pairs = Vec::new(alloc);
    for part in parts {
        pairs.push(as_pair(part).ok_or(SiteFault::Kind(at))?)?;
    }
    Ok(pairs)
}

/// A list of pairs, whatever their numbers are.
#[tactic(auto, unfolding(crate::specs::Lists::list_of))]
fn list_of_pairs(alloc: Global, at: Field, value: &Value) -> Result<Vec<(i64, i64)>, SiteFault>
    ensures ok { IfOk result (λ pairs. list_of as_pair at (view value.now) ≡ Ok pairs.items) }
    ensures fault { IfErr result (λ e. e ≢ NoMemory → list_of as_pair at (view value.now) ≡ Err e) }
{
    as_pairs(alloc, at, parts(at, value)?)
}

/// A number of so many units.
fn times(number: i32, units: u16) -> i64
    ensures { result ≡ number *ℤ pos units }
{
    i64::from(number) * i64::from(units)
}

/// A number in range, in a site's units.
#[tactic(auto, unfolding(crate::specs::Pairs::in_units))]
fn in_units(limits: PairLimits, at: Field, number: i64) -> Result<i64, SiteFault>
    ensures value { result ≡ in_units limits at number }
    ensures inside { IfOk result (IsIn limits.number (pos limits.units)) }
{
    Ok(times(within(at, limits.number, number)?, limits.units))
}

/// Both numbers in range, in a site's units.
#[tactic(auto, unfolding(crate::specs::Pairs::pair))]
fn pair(limits: PairLimits, at: Field, numbers: (i64, i64)) -> Result<(i64, i64), SiteFault>
    ensures value { result ≡ pair limits at numbers }
    ensures inside { IfOk result (IsPair limits) }
{
    let first = in_units(limits, at, numbers.0)?;
    let second = in_units(limits, at, numbers.1)?;
    Ok((first, second))
}

/// These pairs in range, in a site's units.
#[tactic(auto, using(crate::proofs::Each::each_number_steps), unfolding(crate::specs::Lists::each))]
fn pairs_in(
    alloc: Global,
    limits: PairLimits,
    at: Field,
    numbers: &[(i64, i64)],
) -> Result<Vec<(i64, i64)>, SiteFault>
    ensures ok { IfOk result (λ pairs. each (pair limits at) numbers.now ≡ Ok pairs.items) }
    ensures fault { IfErr result (λ e. e ≢ NoMemory → each (pair limits at) numbers.now ≡ Err e) }
    ensures inside { IfOk result (λ pairs. All (IsPair limits) pairs.items) }
    ensures count { IfOk result (λ pairs. vec_len pairs ≡ length numbers.now) }
{
    let mut pairs = Vec::with_capacity(alloc, numbers.len())?;
    for two in numbers {
        pairs.push(pair(limits, at, *two)?)?;
    }
    Ok(pairs)
}

/// A list of pairs, so many.
#[tactic(auto, unfolding(crate::specs::Pairs::pairs_of))]
fn pairs_of(alloc: Global, limits: PairLimits, at: Field, value: &Value) -> Result<Pairs, SiteFault>
    ensures ok { IfOk result (λ found. pairs_of limits at (view value.now) ≡ Ok found) }
    ensures fault { IfErr result (λ e. e ≢ NoMemory → pairs_of limits at (view value.now) ≡ Err e) }
    ensures inside { IfOk result (IsPairs limits) }
{
    let numbers = list_of_pairs(alloc, at, value)?;
    within(at, limits.count, numbers.len() as i64)?;
    Ok(Pairs::new(pairs_in(alloc, limits, at, &numbers)?))
}

impl Place<'_> {
    /// A list of pairs.
    #[tactic(auto, unfolding(crate::specs::Pairs::pairs))]
    pub fn pairs(
        &self,
        alloc: Global,
        number: u16,
        key: &str,
        limits: PairLimits,
    ) -> Result<Pairs, SiteFault>
        ensures ok { IfOk result (λ found. pairs number key.now limits (place self.now) ≡ Ok found) }
        ensures fault { IfErr result (λ e. e ≢ NoMemory → pairs number key.now limits (place self.now) ≡ Err e) }
        ensures inside { IfOk result (IsPairs limits) }
    {
        let at = self.field(number);
        pairs_of(alloc, limits, at, self.required(number, key)?)
    }

    /// A list of pairs, where there is one.
    #[tactic(auto, unfolding(crate::specs::Pairs::optional_pairs))]
    pub fn optional_pairs(
        &self,
        alloc: Global,
        number: u16,
        key: &str,
        limits: PairLimits,
    ) -> Result<Option<Pairs>, SiteFault>
        ensures ok { IfOk result (λ found. optional_pairs number key.now limits (place self.now) ≡ Ok found) }
        ensures fault { IfErr result (λ e. e ≢ NoMemory → optional_pairs number key.now limits (place self.now) ≡ Err e) }
        ensures inside { IfOk result (λ found. IfSome found (IsPairs limits)) }
    {
        match self.get(key) {
            None => Ok(None),
            Some(value) => Ok(Some(pairs_of(alloc, limits, self.field(number), value)?)),
        }
    }
}
