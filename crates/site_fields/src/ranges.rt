//! Ranges of fields.

ghost use Rattle.std.specs.Prelude.{◌≡◌, IfOk};
ghost use Rattle.site_types.specs.Limits.{IsWithin};
ghost use Rattle.site_fields.specs.Ranges.{within};

use crate::fault::{Field, SiteFault};
use site_types::Limits;

/// The numbers that an octet holds.
pub const OCTET: Limits = Limits { low: 0, high: 255 };

/// How many octets the name of an entry has.
pub const NAME_LENGTH: Limits = Limits { low: 1, high: 64 };

/// The number, if it is in range.
pub fn within(at: Field, limits: Limits, number: i64) -> Result<i32, SiteFault>
    ensures value { result ≡ within at limits number }
    ensures inside { IfOk result (IsWithin limits) }
{
    if number < i64::from(limits.low) || i64::from(limits.high) < number {
        return Err(SiteFault::Range(at, number));
    }
    Ok(number as i32)
}
