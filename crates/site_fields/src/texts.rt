//! Texts of a site file.

ghost use Rattle.std.specs.Prelude.{◌≡◌, pos, length, option_map, IfOk, IfSome};
ghost use Rattle.toml.specs.View.{view};
ghost use Rattle.site_fields.specs.Kinds.{reading_map, place};
ghost use Rattle.site_types.specs.Limits.{IsWithin};
ghost use Rattle.site_fields.specs.Texts.{text_within, optional_text};

use crate::fault::{Field, SiteFault};
use crate::kinds::Place;
use crate::ranges::within;
use site_types::Limits;
use toml::Value;

/// A text of so many octets.
#[tactic(auto, unfolding(crate::specs::Texts::text_within))]
fn text_within(at: Field, octets: Limits, value: &Value) -> Result<&str, SiteFault>
    ensures value { reading_map (λ text. text.now) result ≡ text_within at octets (view value.now) }
    ensures inside { IfOk result (λ text. IsWithin octets (pos (length text.now))) }
{
    let text = value.as_str().ok_or(SiteFault::Kind(at))?;
    within(at, octets, text.len() as i64)?;
    Ok(text)
}

impl<'a> Place<'a> {
    /// A text of so many octets, where there is one.
    #[tactic(auto, unfolding(crate::specs::Texts::optional_text))]
    pub fn optional_text(
        &self,
        number: u16,
        key: &str,
        octets: Limits,
    ) -> Result<Option<&'a str>, SiteFault>
        ensures value { reading_map (option_map (λ text. text.now)) result ≡ optional_text number key.now octets (place self.now) }
        ensures inside { IfOk result (λ found. IfSome found (λ text. IsWithin octets (pos (length text.now)))) }
    {
        match self.get(key) {
            None => Ok(None),
            Some(value) => Ok(Some(text_within(self.field(number), octets, value)?)),
        }
    }
}
