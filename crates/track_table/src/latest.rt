//! The record kept for each track.
ghost use Rattle.std.specs.Prelude.{◌≡◌, ◌≢◌, [], None, Some, IfOk, OnOk, OnErr, filter};
ghost use Rattle.std.specs.BTreeMap.{insert_entry, is_at};
ghost use Rattle.std.specs.HashMap.{IsUnchanged, WritesThrough, get, values};
ghost use Rattle.std.specs.Map.{lookup, values_of};
ghost use Rattle.track_motion.specs.Keys.{key_cmp};
ghost use Rattle.track_table.specs.declared.table.Put.TheVariants.{Kept};
ghost use Rattle.track_table.specs.Kept.{told_of};
ghost use Rattle.track_table.specs.KeyOrder.{key_eq};
ghost use Rattle.track_table.specs.Tables.{is_recent, is_row};

use crate::NoMemory;
use crate::order::{places_of_rows, rows_at_places};
use crate::rows::Rows;
use crate::table::Put;
use indexmap::IndexMap;
use std::alloc::Global;
use std::marker::Model;
use track_motion::{Stamped, TrackKey, rank_less};

/// A record for each key that has one, found by the key. Their order is seen where the rows are read.
#[derive(Drop)]
pub struct Latest {
    records: IndexMap<TrackKey, Stamped>,
}

impl Model for Latest {
    ghost use Rattle.std.specs.Prelude.{List};
    ghost use Rattle.track_motion.specs.declared.rank.Stamped.{Stamped};
    ghost use Rattle.track_motion.specs.declared.track.TrackKey.{TrackKey};
    ghost use Rattle.track_table.specs.KeyOrder.{AreKeyed, in_key_order};

    ghost Value = { List (TrackKey × Stamped) };

    ghost view = { λ l. in_key_order l.records.entries };

    ghost invariant = { λ l. AreKeyed l.records.entries };
}

impl Latest {
    /// No record of any track.
    pub fn new(alloc: Global) -> Latest
        ensures { result ≡ [] }
    {
        let records = IndexMap::new(alloc);
        Latest { records }
    }

    /// Writes a record over the one kept for its track, where that is outranked, and says what becomes of it;
    /// `None` where nothing is kept for the track. A record that outranks one that counts counts itself.
    pub fn put_over(&mut self, s: &Stamped) -> Option<Put>
        ensures answer { result ≡ told_of s.now (lookup (is_at (key_cmp s.now.track.key)) self.old) }
        ensures written { result ≡ Some Kept → self.new ≡ insert_entry key_cmp self.old s.now.track.key s.now }
        ensures same { result ≢ Some Kept → self.new ≡ self.old }
    {
        put_over(&mut self.records, s)
    }

    /// Keeps a record for its track.
    pub fn insert(&mut self, s: Stamped) -> Result<(), NoMemory>
        ensures inserted { OnOk result (self.new ≡ insert_entry key_cmp self.old s.track.key s) }
        ensures err { OnErr result (self.new ≡ self.old) }
    {
        self.records.insert(s.track.key, s)?;
        Ok(())
    }

    /// Lets go what was told longer than the timeout before a time.
    pub fn keep_recent(&mut self, time: i64, timeout: i64)
        ensures { self.new ≡ filter (λ entry. is_recent time timeout entry.1) self.old }
    {
        self.records.retain(|_, row| is_recent(row, time, timeout));
    }

    /// The rows at a time, in key order.
    pub fn rows_at(&self, alloc: Global, time: i64, timeout: i64) -> Result<Rows, NoMemory>
        ensures rows { IfOk result (λ rows. rows ≡ filter (is_row time timeout) (values_of self.now)) }
        ensures memory { OnErr result (filter (is_row time timeout) (values_of self.now) ≢ []) }
    {
        let mut places = places_of_rows(alloc, &self.records, time, timeout)?;
        places.sort_unstable_by_key(|place| place.number);
        rows_at_places(alloc, &self.records, places.as_slice())
    }
}

/// A record is a row at a time: it was told at most the timeout before, and isn't the last of its track.
pub fn is_row(row: &Stamped, time: i64, timeout: i64) -> bool
    ensures { result ≡ is_row time timeout row.now }
{
    !row.track.ended && is_recent(row, time, timeout)
}

/// A record was told at most the timeout before a time.
pub fn is_recent(row: &Stamped, time: i64, timeout: i64) -> bool
    ensures { result ≡ is_recent time timeout row.now }
{
    i128::from(time) - i128::from(row.at) <= i128::from(timeout)
}

/// What `Latest::put_over` does to the records.
fn put_over(records: &mut IndexMap<TrackKey, Stamped>, s: &Stamped) -> Option<Put>
    ensures answer { result ≡ told_of s.now (get key_eq records.old s.now.track.key) }
    ensures written { result ≡ Some Kept → WritesThrough key_eq (key_eq s.now.track.key) records.old s.now records.new }
    ensures same { result ≢ Some Kept → IsUnchanged records.old records.new }
{
    let r = records.get_mut(&s.track.key)?;
    if rank_less(r, s) {
        *r = *s;
        return Some(Put::Kept);
    }
    Some(Put::Superseded(*r))
}
