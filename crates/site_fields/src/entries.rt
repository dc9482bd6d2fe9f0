//! The entries of a repeated table, each by its name.

ghost use Rattle.std.specs.Prelude.{◌≡◌, ◌≢◌, ◌<◌, ◌^◌, IfOk, IfErr, Ok, Err, All, map, length, vec_len};
ghost use Rattle.site_fields.specs.declared.fault.SiteFault.TheVariants.{NoMemory};
ghost use Rattle.site_fields.specs.Kinds.{Reading, Place as At, place};
ghost use Rattle.site_fields.specs.Lists.{table_views};
ghost use Rattle.site_fields.specs.Entries.{name_of, entries};

use crate::fault::SiteFault;
use crate::kinds::Place;
use crate::names::Names;
use std::alloc::Global;
use toml::Table;

/// How an entry of a repeated table is read, besides its name.
pub trait ReadEntry {
    /// What the site has of an entry.
    type Entry: Drop;

    ghost reading: { Self → At → Reading Self.Entry };

    ghost IsRead: { Self → Self.Entry → Type 0 };

    /// Reads the entry whose fields stand at this place.
    fn read(&self, alloc: Global, at: &Place) -> Result<Self::Entry, SiteFault>
        ensures ok { IfOk result (λ found. reading self.now (place at.now) ≡ Ok found) }
        ensures fault { IfErr result (λ e. e ≢ NoMemory → reading self.now (place at.now) ≡ Err e) }
        ensures inside { IfOk result (IsRead self.now) };
}

/// The entries of a repeated table and their names, both in file order.
#[derive(Drop)]
pub struct Entries<'a, T> {
    pub list: Vec<T>,
    pub names: Names<'a>,
}

/// Reads the entries of a repeated table: of each its name, which no entry before it has, and then what the reader
/// reads.
#[tactic(auto, using(crate::proofs::EntrySteps::entry_steps), unfolding(crate::specs::Entries::entries))]
pub fn entries_of<'a, R: ReadEntry>(
    alloc: Global,
    number: u16,
    key: &str,
    reader: &R,
    tables: &[&'a Table],
) -> Result<Entries<'a, R::Entry>, SiteFault>
    requires { length tables.now < 2 ^ 32 }
    ensures ok { IfOk result (λ found. entries (R.reading reader.now) number key.now (table_views tables.now) ≡ Ok found.list.items) }
    ensures fault { IfErr result (λ e. e ≢ NoMemory → entries (R.reading reader.now) number key.now (table_views tables.now) ≡ Err e) }
    ensures inside { IfOk result (λ found. All (R.IsRead reader.now) found.list.items) }
    ensures names { IfOk result (λ found. found.names ≡ map (name_of key.now) (table_views tables.now)) }
    ensures count { IfOk result (λ found. vec_len found.list ≡ length tables.now) }
{
    let mut names = Names::new(alloc);
    let mut list = Vec::with_capacity(alloc, tables.len())?;
    for (entry, table) in tables.iter().enumerate() {
        let at = Place {
            table,
            entry: entry as u32,
        };
        at.own_name(number, key, &mut names)?;
        list.push(reader.read(alloc, &at)?)?;
    }
    Ok(Entries { list, names })
}
