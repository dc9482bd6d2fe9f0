//! All cycles of feeds, one after the other.
ghost use Rattle.std.specs.Prelude.{◌≡◌, ◌+◌, ◌^◌, ◌<◌, ◌≤◌, not, All, IfOk, OnErr, OnOk, IsErrOf, length, map, nat_eq};
ghost use Rattle.std.specs.Io.KnownBytes.{Appends};
ghost use Rattle.std.specs.List.{list_any};
ghost use Rattle.outside_io.specs.Bytes.{AppendsPrefix};
ghost use Rattle.outside_io.specs.Faults.{Rose};
ghost use Rattle.cycle_workers.specs.Settings.{setting};
ghost use Rattle.site_types.specs.Ranges.{IsSite};
ghost use Rattle.terrain_file.specs.Ranges.{IsTerrain};
ghost use Rattle.feed_threads.specs.Counts.{made_of};
ghost use Rattle.track_table.specs.Proper.{IsSeen};
ghost use Rattle.feed_threads.specs.Cycling.{behind_due, due_front, due_fronts, made_with, stamps_each};
ghost use Rattle.feed_reader.specs.Feeds.{AreTellable};
ghost use Rattle.feed_threads.specs.Reference.{alerts, examined};
ghost use Rattle.feed_threads.specs.Rows.{IsTimed, Puts};

use crate::cursor::Cursor;
use cycle_engine::{CycleDone, CycleFault, Engine, NoMemory};
use feed_reader::Input;
use outside_io::{Sink, Steps};
use site_types::Site;
use std::alloc::Global;
use std::sync::ledger::Ledger;
use terrain_file::Terrain;
use track_table::Table;
use track_table::cycles::cycles_of_records;
use track_table::laws::{
    cycles_in_order, feeds_are_ranked, feeds_keep_to_time, stamps_one_by_one, tables_are_proper,
    tables_of_the_same_records, windows_of_a_feed,
};

/// What all cycles came to: how many there are, how many alerts begin in them, and how many messages they have.
/// Counts stop at their last value.
#[derive(Clone, Copy, Debug, PartialEq, Eq)]
pub struct Made {
    pub cycles: u64,
    pub firsts: u64,
    pub messages: u64,
}

/// The stamps of each feed, from the first on.
fn cursors_of<'a>(
    alloc: Global,
    site: &Site,
    inputs: &'a [Input],
) -> Result<Vec<Cursor<'a>>, NoMemory>
    requires site { IsTimed site.now }
    requires tellable { AreTellable inputs.now }
    requires few { length inputs.now < 2 ^ 32 }
    ensures { IfOk result (λ cursors. cursors.items ≡ stamps_each site.now inputs.now) }
{
    let mut cursors = Vec::new(alloc);
    for (feed, input) in inputs.iter().enumerate() {
        cursors.push(Cursor::new(site, feed as u32, input))?;
    }
    Ok(cursors)
}

/// Puts the records of a feed that were told by the end of a cycle into the table.
fn put_due(cursor: &mut Cursor<'_>, table: &mut Table, k: u64) -> Result<(), NoMemory>
    ensures left { OnOk result (cursor.new ≡ behind_due k cursor.old) }
    ensures put { OnOk result (Puts table.old table.new (due_front k cursor.old)) }
    ensures seen { OnOk result (All (λ s. IsSeen s.track) (due_front k cursor.old)) }
{
    while let Some(stamp) = cursor.next_due(k) {
        table.put(stamp)?;
        cursor.advance();
    }
    Ok(())
}

/// Puts the records of all feeds that were told by the end of a cycle into the table.
fn put_all_due(cursors: &mut [Cursor<'_>], table: &mut Table, k: u64) -> Result<(), NoMemory>
    ensures left { OnOk result (cursors.new ≡ map (behind_due k) cursors.old) }
    ensures put { OnOk result (Puts table.old table.new (due_fronts k cursors.old)) }
    ensures seen { OnOk result (All (λ s. IsSeen s.track) (due_fronts k cursors.old)) }
{
    for cursor in cursors.iter_mut() {
        put_due(cursor, table, k)?;
    }
    Ok(())
}

/// Whether a record is left that isn't in the table.
fn are_left(cursors: &[Cursor<'_>]) -> bool
    ensures { result ≡ list_any (λ left. not (nat_eq (length left) 0)) cursors.now }
{
    cursors.iter().any(|cursor| !cursor.is_done())
}

/// What the cycles came to with one more.
fn with_cycle(made: Made, done: CycleDone) -> Made
    ensures { result ≡ made_with made done }
{
    Made {
        cycles: made.cycles.saturating_add(1),
        firsts: made.firsts.saturating_add(done.firsts),
        messages: made.messages.saturating_add(done.messages),
    }
}

/// Makes all cycles of feeds of these contents, and writes their alert bytes as it goes.
pub fn make_cycles<K: Sink, L: Ledger>(
    alloc: Global,
    site: &Site,
    terrain: &Terrain,
    inputs: &[Input],
    out: &mut K,
    steps: &mut Steps<L>,
) -> Result<Made, CycleFault>
    requires site { IsSite site.now }
    requires terrain { IsTerrain terrain.now }
    requires tellable { AreTellable inputs.now }
    requires few { length inputs.now < 2 ^ 32 }
    ensures alerts { OnOk result (Appends (K.taken out.old) (K.taken out.new) (alerts (setting site.now terrain.now) inputs.now)) }
    ensures made { IfOk result (λ made. made ≡ made_of (setting site.now terrain.now) inputs.now) }
    ensures counted { OnOk result (steps.new ≡ steps.old + examined site.now inputs.now) }
    ensures prefix { OnErr result (AppendsPrefix (K.taken out.old) (K.taken out.new) (alerts (setting site.now terrain.now) inputs.now)) }
    ensures broken { IsErrOf result CycleFault.WriteFault → Rose (K.faults out.old) (K.faults out.new) }
    ensures unbroken { (IsErrOf result CycleFault.WriteFault → ⊥) → K.faults out.new ≡ K.faults out.old }
    ensures louder { K.faults out.old ≤ K.faults out.new }
    ensures later { steps.old ≤ steps.new }
{
    // The proof takes these laws; the calls do nothing.
    cycles_in_order();
    cycles_of_records();
    feeds_are_ranked();
    feeds_keep_to_time();
    stamps_one_by_one();
    tables_are_proper();
    tables_of_the_same_records();
    windows_of_a_feed();
    let mut cursors = cursors_of(alloc, site, inputs)?;
    let mut table = Table::new(alloc, site.start, site.period, site.timeout);
    let mut engine = Engine::new(alloc, site, terrain)?;
    let mut made = Made {
        cycles: 0,
        firsts: 0,
        messages: 0,
    };
    while are_left(&cursors) {
        let k = engine.next();
        put_all_due(&mut cursors, &mut table, k)?;
        let frozen = table.freeze(k)?;
        made = with_cycle(made, engine.cycle(&frozen, out, steps)?);
    }
    Ok(made)
}
