//! The names of entries.

ghost use Rattle.std.specs.Prelude.{◌≡◌, ◌≢◌, ◌<◌, ◌^◌, [], ◌∷◌, ◌++◌, IfOk, IfErr, IfSome, IfNone, Err, length, position};
ghost use Rattle.std.specs.Str.{bytes_eq};
ghost use Rattle.site_fields.specs.declared.fault.SiteFault.TheVariants.{NoMemory};
ghost use Rattle.site_fields.specs.Kinds.{place};
ghost use Rattle.site_fields.specs.Entries.{own_name, named_entry, JoinsName};

use crate::fault::SiteFault;
use crate::kinds::Place;
use crate::ranges::{NAME_LENGTH, within};
use indexmap::IndexSet;
use std::alloc::{AllocError, Global};
use std::marker::Model;

/// The names of a table's entries, in file order.
#[derive(Drop)]
pub struct Names<'a> {
    names: IndexSet<&'a str>,
}

impl<'a> Model for Names<'a> {
    ghost use Rattle.std.specs.Prelude.{List, ℕ, map, length, ◌≤◌, ◌^◌};

    ghost Value = { List (List ℕ) };

    ghost view = { λ n. map (λ name. name.now) n.names.keys };

    ghost invariant = { λ n. length n.names.keys ≤ 2 ^ 32 };
}

impl<'a> Names<'a> {
    /// No names.
    pub fn new(alloc: Global) -> Names<'a>
        ensures { result ≡ [] }
    {
        Names {
            names: IndexSet::new(alloc),
        }
    }

    /// Adds the name of the next entry. Where an earlier entry has it, answers that one.
    fn add(&mut self, name: &'a str) -> Result<Option<usize>, AllocError>
        requires { length self.old < 2 ^ 32 }
        ensures earlier { IfOk result (λ earlier. earlier ≡ position (bytes_eq name.now) self.old) }
        ensures inside { IfOk result (λ earlier. IfSome earlier (λ first. first < length self.old)) }
        ensures added { IfOk result (λ earlier. IfNone earlier (self.new ≡ self.old ++ name.now ∷ [])) }
    {
        let (index, is_new) = self.names.insert_full(name)?;
        Ok(if is_new { None } else { Some(index) })
    }

    /// The number of the entry that has the name.
    pub fn find(&self, name: &str) -> Option<usize>
        ensures place { result ≡ position (bytes_eq name.now) self.now }
        ensures inside { IfSome result (λ index. index < length self.now) }
        ensures few { IfSome result (λ index. index < 2 ^ 32) }
    {
        self.names.get_index_of(name)
    }
}

impl<'a> Place<'a> {
    /// The entry's name, which is none of these names of the entries before it. It joins them.
    #[tactic(auto, unfolding(crate::specs::Entries::own_name))]
    pub(crate) fn own_name(
        &self,
        number: u16,
        key: &str,
        names: &mut Names<'a>,
    ) -> Result<(), SiteFault>
        requires { length names.old < 2 ^ 32 }
        ensures ok { IfOk result (λ _. JoinsName (own_name number key.now names.old (place self.now)) names.old names.new) }
        ensures fault { IfErr result (λ e. e ≢ NoMemory → own_name number key.now names.old (place self.now) ≡ Err e) }
    {
        let at = self.field(number);
        let name = self.text(number, key)?;
        within(at, NAME_LENGTH, name.len() as i64)?;
        match names.add(name)? {
            None => Ok(()),
            Some(first) => Err(SiteFault::Twice(at, first as u32)),
        }
    }

    /// The number of the entry whose name stands there, where the entries have these names.
    #[tactic(auto, unfolding(crate::specs::Entries::named_entry))]
    pub fn named_entry(&self, number: u16, key: &str, names: &Names) -> Result<u32, SiteFault>
        ensures value { result ≡ named_entry number key.now names.now (place self.now) }
        ensures inside { IfOk result (λ index. index < length names.now) }
    {
        let name = self.text(number, key)?;
        match names.find(name) {
            None => Err(SiteFault::NoSuchName(self.field(number))),
            Some(index) => Ok(index as u32),
        }
    }
}
