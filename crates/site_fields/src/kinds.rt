//! What stands at a key, and of which kind it is.

ghost use Rattle.std.specs.Prelude.{◌≡◌, option_map};
ghost use Rattle.toml.specs.Data.{get_member};
ghost use Rattle.toml.specs.View.{view};
ghost use Rattle.site_fields.specs.Kinds.{reading_map, place, field, required, boolean, text, table};

use crate::fault::{Field, SiteFault};
use toml::{Table, Value};

/// Where fields are looked for: a table of the site file, and its number among the entries of a repeated
/// table, 0 outside those.
#[derive(Clone, Copy)]
pub struct Place<'a> {
    pub table: &'a Table,
    pub entry: u32,
}

impl<'a> Place<'a> {
    /// The field of this number there.
    pub fn field(&self, number: u16) -> Field
        ensures { result ≡ field number (place self.now) }
    {
        Field {
            number,
            entry: self.entry,
        }
    }

    /// What stands at the key.
    pub fn get(&self, key: &str) -> Option<&'a Value>
        ensures { option_map (λ v. view v.now) result ≡ get_member key.now (place self.now).members }
    {
        self.table.get(key)
    }

    /// What stands at the key, which must be there.
    #[tactic(auto, unfolding(crate::specs::Kinds::required))]
    pub fn required(&self, number: u16, key: &str) -> Result<&'a Value, SiteFault>
        ensures { reading_map (λ v. view v.now) result ≡ required number key.now (place self.now) }
    {
        self.get(key).ok_or(SiteFault::Missing(self.field(number)))
    }

    /// True or false.
    #[tactic(auto, unfolding(crate::specs::Kinds::boolean))]
    pub fn boolean(&self, number: u16, key: &str) -> Result<bool, SiteFault>
        ensures { result ≡ boolean number key.now (place self.now) }
    {
        let value = self.required(number, key)?;
        value.as_bool().ok_or(SiteFault::Kind(self.field(number)))
    }

    /// A text.
    #[tactic(auto, unfolding(crate::specs::Kinds::text))]
    pub fn text(&self, number: u16, key: &str) -> Result<&'a str, SiteFault>
        ensures { reading_map (λ text. text.now) result ≡ text number key.now (place self.now) }
    {
        let value = self.required(number, key)?;
        value.as_str().ok_or(SiteFault::Kind(self.field(number)))
    }

    /// A table, whose fields are looked for in it.
    #[tactic(auto, unfolding(crate::specs::Kinds::table))]
    pub fn table(&self, number: u16, key: &str) -> Result<Place<'a>, SiteFault>
        ensures { reading_map place result ≡ table number key.now (place self.now) }
    {
        let value = self.required(number, key)?;
        match value.as_table() {
            None => Err(SiteFault::Kind(self.field(number))),
            Some(table) => Ok(Place {
                table,
                entry: self.entry,
            }),
        }
    }
}
