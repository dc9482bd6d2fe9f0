//! Repeated tables.

ghost use Rattle.std.specs.Prelude.{◌≡◌, ◌≢◌, pos, IfOk, IfErr, Ok, Err, vec_len};
ghost use Rattle.toml.specs.View.{view};
ghost use Rattle.site_fields.specs.declared.fault.SiteFault.TheVariants.{NoMemory};
ghost use Rattle.site_fields.specs.Kinds.{place};
ghost use Rattle.site_fields.specs.Lists.{table_views};
ghost use Rattle.site_fields.specs.Entries.{so_many_tables, tables, optional_tables};
ghost use Rattle.site_types.specs.Limits.{IsWithin};

use crate::fault::{Field, SiteFault};
use crate::kinds::Place;
use crate::lists::tables_of;
use crate::ranges::within;
use site_types::Limits;
use std::alloc::Global;
use toml::{Table, Value};

/// The entries of a repeated table, so many.
#[tactic(auto, unfolding(crate::specs::Entries::so_many_tables))]
fn so_many_tables<'a>(
    alloc: Global,
    at: Field,
    count: Limits,
    value: &'a Value,
) -> Result<Vec<&'a Table>, SiteFault>
    ensures ok { IfOk result (λ found. so_many_tables at count (view value.now) ≡ Ok (table_views found.items)) }
    ensures fault { IfErr result (λ e. e ≢ NoMemory → so_many_tables at count (view value.now) ≡ Err e) }
    ensures inside { IfOk result (λ found. IsWithin count (pos (vec_len found))) }
{
    let tables = tables_of(alloc, at, value)?;
    within(at, count, tables.len() as i64)?;
    Ok(tables)
}

impl<'a> Place<'a> {
    /// A repeated table: its entries.
    #[tactic(auto, unfolding(crate::specs::Entries::tables))]
    pub fn tables(
        &self,
        alloc: Global,
        number: u16,
        key: &str,
        count: Limits,
    ) -> Result<Vec<&'a Table>, SiteFault>
        ensures ok { IfOk result (λ found. tables number key.now count (place self.now) ≡ Ok (table_views found.items)) }
        ensures fault { IfErr result (λ e. e ≢ NoMemory → tables number key.now count (place self.now) ≡ Err e) }
        ensures inside { IfOk result (λ found. IsWithin count (pos (vec_len found))) }
    {
        let at = self.field(number);
        so_many_tables(alloc, at, count, self.required(number, key)?)
    }

    /// The same of a table that need not be there, and has no entries then.
    #[tactic(auto, unfolding(crate::specs::Entries::optional_tables))]
    pub fn optional_tables(
        &self,
        alloc: Global,
        number: u16,
        key: &str,
        count: Limits,
    ) -> Result<Vec<&'a Table>, SiteFault>
        ensures ok { IfOk result (λ found. optional_tables number key.now count (place self.now) ≡ Ok (table_views found.items)) }
        ensures fault { IfErr result (λ e. e ≢ NoMemory → optional_tables number key.now count (place self.now) ≡ Err e) }
        ensures inside { IfOk result (λ found. IsWithin count (pos 0) → IsWithin count (pos (vec_len found))) }
    {
        match self.get(key) {
            None => Ok(Vec::new(alloc)),
            Some(value) => so_many_tables(alloc, self.field(number), count, value),
        }
    }
}
