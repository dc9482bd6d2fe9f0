//! The engine: it makes one cycle after the other, and keeps the book of alerts over all of them.
ghost use Rattle.std.specs.Prelude.{◌≡◌, ◌+◌, ◌≤◌, [], IfOk, OnOk, IsErrOf};
ghost use Rattle.outside_io.specs.Faults.{Rose};
ghost use Rattle.cycle_workers.specs.Settings.{setting};
ghost use Rattle.site_types.specs.Ranges.{IsSite};
ghost use Rattle.terrain_file.specs.Ranges.{IsTerrain};
ghost use Rattle.cycle_engine.specs.Held.{IsTableOf, StandsFor};
ghost use Rattle.cycle_engine.specs.Outcomes.{Answers, Keeps, Writes, WritesPrefix};

use crate::NoMemory;
use crate::messages::{pack_events, tell_events};
use alert_states::{Book, Event};
use cat004_write::Packer;
use cycle_workers::Nets;
use outside_io::{Failed, Sink, Steps, write_whole};
use site_types::Site;
use std::alloc::{AllocError, Global};
use std::marker::Model;
use std::sync::ledger::Ledger;
use terrain_file::Terrain;
use track_table::Frozen;

/// What a cycle came to: how many messages it wrote, how many alerts begin in it, and how many pairs were examined.
#[derive(Clone, Copy, Debug, PartialEq, Eq)]
pub struct CycleDone {
    pub messages: u64,
    pub firsts: u64,
    pub examined: u64,
}

/// Why a cycle wasn't made.
#[derive(Clone, Copy, Debug, PartialEq, Eq)]
pub enum CycleFault {
    /// Want of memory: nothing was written, and the cycle may be tried again.
    NoMemory,
    /// A write failed.
    WriteFault,
}

impl From<AllocError> for CycleFault {
    ghost use Rattle.std.specs.Prelude.{◌≡◌};
    ghost use Rattle.cycle_engine.specs.declared.engine.CycleFault.TheVariants.{NoMemory};

    ghost from_gives = { λ _ e. e ≡ NoMemory };

    fn from(_: AllocError) -> Self {
        CycleFault::NoMemory
    }
}

impl From<Failed> for CycleFault {
    ghost use Rattle.std.specs.Prelude.{◌≡◌};
    ghost use Rattle.cycle_engine.specs.declared.engine.CycleFault.TheVariants.{WriteFault};

    ghost from_gives = { λ _ e. e ≡ WriteFault };

    fn from(_: Failed) -> Self {
        CycleFault::WriteFault
    }
}

/// Makes the cycles of a site over a terrain, each from its table.
#[derive(Drop)]
pub struct Engine<'a> {
    nets: Nets<'a>,
    book: Book,
    packer: Packer,
    /// Room for the events of the next cycle; those of the last stand in it.
    events: Vec<Event>,
    next: u64,
    alloc: Global,
}

impl<'a> Model for Engine<'a> {
    ghost use Rattle.cycle_engine.specs.Held.{Held, IsReady};

    ghost Value = { Held };

    ghost view = { λ e. record { setting = e.nets; book = e.book; next = e.next } };

    ghost invariant = { λ e. IsReady e.nets.site e.book e.packer.blocks };
}

impl<'a> Engine<'a> {
    /// An engine before the first cycle.
    pub fn new(alloc: Global, site: &'a Site, terrain: &'a Terrain) -> Result<Engine<'a>, NoMemory>
        requires site { IsSite site.now }
        requires terrain { IsTerrain terrain.now }
        ensures setting { IfOk result (λ engine. engine.setting ≡ setting site.now terrain.now) }
        ensures stands { IfOk result (λ engine. StandsFor engine []) }
    {
        Ok(Engine {
            nets: Nets::of(alloc, site, terrain)?,
            book: Book::new(alloc, site.confirm),
            packer: Packer::new(alloc),
            events: Vec::new(alloc),
            next: 0,
            alloc,
        })
    }

    /// The number of the cycle that is to be made next; cycles are numbered from 0.
    pub fn next(&self) -> u64
        ensures { result ≡ self.now.next }
    {
        self.next
    }

    /// Makes the next cycle of this table: writes its alert bytes to the sink, and answers what it came to.
    pub fn cycle<K: Sink, L: Ledger>(
        &mut self,
        f: &Frozen,
        sink: &mut K,
        steps: &mut Steps<L>,
    ) -> Result<CycleDone, CycleFault>
        requires table { IsTableOf self.old.setting.site self.old.next f.now }

        // The cycle was made.
        ensures bytes { OnOk result (Writes self.old f.now (K.taken sink.old) (K.taken sink.new)) }
        ensures stands { OnOk result (Keeps self.old f.now self.new) }
        ensures done { IfOk result (Answers self.old f.now) }
        ensures counted { IfOk result (λ done. steps.new ≡ steps.old + done.examined) }
        ensures onward { OnOk result (self.new.next ≡ self.old.next + 1) }

        // Want of memory.
        ensures unmoved { IsErrOf result CycleFault.NoMemory → self.new ≡ self.old }
        ensures unwritten { IsErrOf result CycleFault.NoMemory → sink.new ≡ sink.old }

        // A write failed.
        ensures prefix { IsErrOf result CycleFault.WriteFault → WritesPrefix self.old f.now (K.taken sink.old) (K.taken sink.new) }
        ensures broken { IsErrOf result CycleFault.WriteFault → Rose (K.faults sink.old) (K.faults sink.new) }

        ensures still { IsErrOf result CycleFault.WriteFault → self.new.next ≡ self.old.next }

        // What stays as it was.
        ensures setting { self.new.setting ≡ self.old.setting }
        ensures unbroken { (IsErrOf result CycleFault.WriteFault → ⊥) → K.faults sink.new ≡ K.faults sink.old }
        ensures louder { K.faults sink.old ≤ K.faults sink.new }
        ensures later { steps.old ≤ steps.new }
    {
        // The proof takes this time's range: the number of the next cycle fits because it does.
        let _time = f.time;
        let site = self.nets.site();
        let found = self.nets.hits(self.alloc, f, steps)?;
        let firsts = tell_events(
            &mut self.book,
            &mut self.packer,
            &mut self.events,
            &found.hits,
        )?;
        let bytes = pack_events(&mut self.packer, &self.events, f, site);
        write_whole(sink, &bytes)?;
        self.next += 1;
        Ok(CycleDone {
            messages: self.events.len() as u64,
            firsts,
            examined: found.examined,
        })
    }
}
