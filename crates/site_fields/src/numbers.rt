//! Numbers of a site file, in the units of a site.

ghost use Rattle.std.specs.Prelude.{◌≡◌, IfOk, IfSome};
ghost use Rattle.toml.specs.View.{view};
ghost use Rattle.site_fields.specs.Kinds.{place};
ghost use Rattle.site_types.specs.Limits.{IsWithin, IsIn, IsHeight, IsLevel};
ghost use Rattle.site_fields.specs.Numbers.{ranged, levels, integer, octet, seconds, metres, height, optional_integer, optional_levels};

use crate::fault::{Field, SiteFault};
use crate::kinds::Place;
use crate::ranges::{OCTET, within};
use site_types::{
    FEET_PER_LEVEL, HEIGHT_UNITS_PER_25_FEET, LENGTH_UNITS_PER_METRE, Limits, TICKS_PER_SECOND,
};
use toml::Value;

/// An integer in range.
#[tactic(auto, unfolding(crate::specs::Numbers::ranged))]
pub fn ranged(at: Field, limits: Limits, value: &Value) -> Result<i32, SiteFault>
    ensures value { result ≡ ranged at limits (view value.now) }
    ensures inside { IfOk result (IsWithin limits) }
{
    let number = value.as_integer().ok_or(SiteFault::Kind(at))?;
    within(at, limits, number)
}

/// Feet in range, as steps of 25 ft.
#[tactic(auto, unfolding(crate::specs::Numbers::levels))]
pub fn levels(at: Field, limits: Limits, value: &Value) -> Result<i32, SiteFault>
    ensures value { result ≡ levels at limits (view value.now) }
    ensures inside { IfOk result (IsLevel limits) }
{
    let feet = ranged(at, limits, value)?;
    if feet % FEET_PER_LEVEL != 0 {
        return Err(SiteFault::Range(at, i64::from(feet)));
    }
    Ok(feet / FEET_PER_LEVEL)
}

impl Place<'_> {
    /// An integer in range.
    #[tactic(auto, unfolding(crate::specs::Numbers::integer))]
    pub fn integer(&self, number: u16, key: &str, limits: Limits) -> Result<i32, SiteFault>
        ensures value { result ≡ integer number key.now limits (place self.now) }
        ensures inside { IfOk result (IsWithin limits) }
    {
        ranged(self.field(number), limits, self.required(number, key)?)
    }

    /// The same as 64 bits, for a field whose unit is the site's too.
    pub fn unscaled(&self, number: u16, key: &str, limits: Limits) -> Result<i64, SiteFault>
        ensures value { result ≡ integer number key.now limits (place self.now) }
        ensures inside { IfOk result (IsWithin limits) }
    {
        Ok(i64::from(self.integer(number, key, limits)?))
    }

    /// An octet.
    #[tactic(auto, unfolding(crate::specs::Numbers::octet))]
    pub fn octet(&self, number: u16, key: &str) -> Result<u8, SiteFault>
        ensures { result ≡ octet number key.now (place self.now) }
    {
        Ok(self.integer(number, key, OCTET)? as u8)
    }

    /// Seconds, in ticks.
    #[tactic(auto, unfolding(crate::specs::Numbers::seconds))]
    pub fn seconds(&self, number: u16, key: &str, limits: Limits) -> Result<i64, SiteFault>
        ensures value { result ≡ seconds number key.now limits (place self.now) }
        ensures inside { IfOk result (IsIn limits TICKS_PER_SECOND) }
    {
        Ok(i64::from(self.integer(number, key, limits)?) * TICKS_PER_SECOND)
    }

    /// Metres, in length units.
    #[tactic(auto, unfolding(crate::specs::Numbers::metres))]
    pub fn metres(&self, number: u16, key: &str, limits: Limits) -> Result<i64, SiteFault>
        ensures value { result ≡ metres number key.now limits (place self.now) }
        ensures inside { IfOk result (IsIn limits LENGTH_UNITS_PER_METRE) }
    {
        Ok(i64::from(self.integer(number, key, limits)?) * LENGTH_UNITS_PER_METRE)
    }

    /// Feet, in height units.
    #[tactic(auto, unfolding(crate::specs::Numbers::height))]
    pub fn height(&self, number: u16, key: &str, limits: Limits) -> Result<i64, SiteFault>
        ensures value { result ≡ height number key.now limits (place self.now) }
        ensures inside { IfOk result (IsHeight limits) }
    {
        let levels = levels(self.field(number), limits, self.required(number, key)?)?;
        Ok(i64::from(levels) * HEIGHT_UNITS_PER_25_FEET)
    }

    /// An integer in range, where there is one.
    #[tactic(auto, unfolding(crate::specs::Numbers::optional_integer))]
    pub fn optional_integer(
        &self,
        number: u16,
        key: &str,
        limits: Limits,
    ) -> Result<Option<i32>, SiteFault>
        ensures { result ≡ optional_integer number key.now limits (place self.now) }
    {
        match self.get(key) {
            None => Ok(None),
            Some(value) => Ok(Some(ranged(self.field(number), limits, value)?)),
        }
    }

    /// Feet in range as steps of 25 ft, where there are any.
    #[tactic(auto, unfolding(crate::specs::Numbers::optional_levels))]
    pub fn optional_levels(
        &self,
        number: u16,
        key: &str,
        limits: Limits,
    ) -> Result<Option<i32>, SiteFault>
        ensures value { result ≡ optional_levels number key.now limits (place self.now) }
        ensures inside { IfOk result (λ found. IfSome found (IsLevel limits)) }
    {
        match self.get(key) {
            None => Ok(None),
            Some(value) => Ok(Some(levels(self.field(number), limits, value)?)),
        }
    }
}
