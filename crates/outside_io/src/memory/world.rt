//! A world in memory.
ghost use Rattle.std.specs.Prelude.{◌≡◌, ◌≤◌, ◌<◌, ◌+◌, ◌-◌, ◌↔◌, drop, option_copied, true, false, Some, None, IfOk, IsErrOf, MatchOption, nat_lt, if◌then◌else◌};
ghost use Rattle.outside_io.specs.Faults.{Rose};
ghost use Rattle.outside_io.specs.Names.{Opens, Lacks};
ghost use Rattle.outside_io.specs.Opened.{CountsOpened};
ghost use Rattle.outside_io.specs.Calls.{counted, is_listed};
ghost use Rattle.outside_io.specs.Memory.{told, source_of, IsFresh};

use crate::NoMemory;
use crate::calls::{lists, next_count};
use crate::memory::source::MemSource;
use crate::world::{OpenFault, World};
use std::alloc::Global;

/// A name with the source that opening it copies.
#[derive(Drop)]
pub struct MemFile {
    pub name: String,
    pub source: MemSource,
}

/// Names that are opened in memory. A new one has `opens`, `opened` and `faults` 0.
#[derive(Drop)]
pub struct MemWorld {
    /// Of two equal names the first counts.
    pub files: Vec<MemFile>,
    /// The numbers of the opens that fail.
    pub fail: Vec<u64>,
    pub opens: u64,
    /// How many of its feeds are open.
    pub opened: u64,
    pub faults: u64,
}

impl World for MemWorld {
    type Feed = MemSource;

    ghost files = { λ w. Some (told w.files.items) };

    ghost opened = { λ w. w.opened };

    ghost faults = { λ w. w.faults };

    fn open(&mut self, alloc: Global, name: &str) -> Result<MemSource, OpenFault>
        ensures files { Some (told self.new.files.items) ≡ Some (told self.old.files.items) }
        ensures opened { CountsOpened self.old.opened self.new.opened result }
        ensures bytes { IfOk result (λ feed. Opens (Some (told self.old.files.items)) name.now (Some (drop feed.at feed.bytes.items))) }
        ensures fresh { IfOk result (λ feed. feed.faults ≡ 0) }
        ensures no_such { IsErrOf result OpenFault.NoSuch → Lacks (Some (told self.old.files.items)) name.now }
        ensures wanting { IsErrOf result OpenFault.NoMemory → Lacks (Some (told self.old.files.items)) name.now → ⊥ }
        ensures failed { IsErrOf result OpenFault.Failed → Rose self.old.faults self.new.faults }
        ensures later { self.old.faults ≤ self.new.faults }
        ensures quiet { (IsErrOf result OpenFault.Failed → ⊥) → self.new.faults ≡ self.old.faults }
        // It fails exactly where the list says so.
        ensures fails { IsErrOf result OpenFault.Failed ↔ (is_listed self.old.fail.items self.old.opens ≡ true) }
        ensures lacks { IsErrOf result OpenFault.NoSuch ↔ ((is_listed self.old.fail.items self.old.opens ≡ false) × (source_of name.now self.old.files.items ≡ None)) }
        ensures copy { IfOk result (λ feed. MatchOption (source_of name.now self.old.files.items) ⊥ (λ source. IsFresh source feed)) }
        ensures opens { self.new.opens ≡ counted self.old.opens }
        ensures count { self.new.faults ≡ (if is_listed self.old.fail.items self.old.opens then counted self.old.faults else self.old.faults) }
        ensures kept { self.new ≡ record self.old { opens = self.new.opens; opened = self.new.opened; faults = self.new.faults } }
    {
        let call = self.opens;
        self.opens = next_count(call);
        if lists(&self.fail, call) {
            self.faults = next_count(self.faults);
            return Err(OpenFault::Failed);
        }
        match find_source(&self.files, name) {
            None => Err(OpenFault::NoSuch),
            Some(_) if self.opened == u64::MAX => Err(OpenFault::NoMemory),
            Some(source) => match fresh_copy(alloc, source) {
                Ok(feed) => {
                    self.opened += 1;
                    Ok(feed)
                }
                Err(_) => Err(OpenFault::NoMemory),
            },
        }
    }

    fn close(&mut self, feed: MemSource)
        ensures files { Some (told self.new.files.items) ≡ Some (told self.old.files.items) }
        ensures opened { self.new.opened ≡ self.old.opened - 1 }
        ensures quiet { feed.faults ≡ 0 → self.new.faults ≡ self.old.faults }
        ensures failed { 0 < feed.faults → Rose self.old.faults self.new.faults }
        ensures later { self.old.faults ≤ self.new.faults }
        ensures count { self.new.faults ≡ (if nat_lt 0 feed.faults then counted self.old.faults else self.old.faults) }
        ensures kept { self.new ≡ record self.old { opened = self.new.opened; faults = self.new.faults } }
    {
        self.opened = self.opened.saturating_sub(1);
        if feed.faults > 0 {
            self.faults = next_count(self.faults);
        }
    }
}

fn find_source<'a>(files: &'a [MemFile], name: &str) -> Option<&'a MemSource>
    ensures { option_copied result ≡ source_of name.now files.now }
{
    for file in files {
        if name == file.name.as_str() {
            return Some(&file.source);
        }
    }
    None
}

fn fresh_copy(alloc: Global, source: &MemSource) -> Result<MemSource, NoMemory>
    ensures { IfOk result (λ copy. IsFresh source.now copy) }
{
    Ok(MemSource {
        bytes: Vec::from_slice(alloc, &source.bytes)?,
        cuts: Vec::from_slice(alloc, &source.cuts)?,
        fail: Vec::from_slice(alloc, &source.fail)?,
        at: 0,
        calls: 0,
        faults: 0,
    })
}
