//! The table of tracks: what is kept of all records put, and the rows of a cycle.
ghost use Rattle.std.specs.Prelude.{◌≡◌, ◌≢◌, ◌≤◌, ◌+◌, [], ◌∷◌, ◌++◌, List, length, None, Some, IfOk, OnOk, OnErr};
ghost use Rattle.track_motion.specs.declared.rank.Stamped.{Stamped};
ghost use Rattle.track_table.specs.Kept.{AreDue, CanFreeze, StandsFor, answer_to, counting, counts};
ghost use Rattle.track_table.specs.Tables.{table};
ghost use Rattle.track_table.specs.Times.{IsTime, cycle_time};

use crate::NoMemory;
use crate::latest::{Latest, is_recent};
use crate::rows::Rows;
use std::alloc::Global;
use std::marker::Model;
use track_motion::Stamped;

/// What becomes of a record that is put into a table.
#[derive(Clone, Copy, Debug, PartialEq, Eq)]
pub enum Put {
    /// It outranks each record of its track that still counts.
    Kept,
    /// This record of its track counts instead.
    Superseded(Stamped),
}

/// The table of a cycle.
#[derive(Debug, Drop)]
pub struct Frozen {
    pub cycle: u64,
    /// The cycle's time, to which its rows are moved on, in ticks of 1/128 s.
    pub time: i64,
    pub rows: Rows,
}

/// All records put so far, of which it keeps one a track, and none that was told longer than the timeout
/// before the last table's time.
#[derive(Drop)]
pub struct Table {
    start: i64,
    period: i64,
    timeout: i64,
    frozen: Option<i64>,
    kept: Latest,
    alloc: Global,
}

impl Model for Table {
    ghost use Rattle.track_table.specs.Held.{Held};

    ghost Value = { Held };

    ghost view = { λ t. record { start = t.start; period = t.period; timeout = t.timeout; frozen = t.frozen; kept = t.kept } };
}

impl Table {
    /// A table without records. The cycles begin at `start` and are `period` long; a record stays a row
    /// for `timeout` after it was told. All are in ticks of 1/128 s.
    pub fn new(alloc: Global, start: i64, period: i64, timeout: i64) -> Table
        ensures held { result ≡ record { start = start; period = period; timeout = timeout; frozen = None; kept = [] } }
        ensures stands { StandsFor result [] }
    {
        Table {
            start,
            period,
            timeout,
            frozen: None,
            kept: Latest::new(alloc),
            alloc,
        }
    }

    /// Puts a record beside the others. It takes memory for the first record of a track that counts.
    pub fn put(&mut self, s: Stamped) -> Result<Put, NoMemory>
        ensures answer { IfOk result (λ put. (puts : List Stamped) → StandsFor self.old puts → put ≡ answer_to self.old.timeout self.old.frozen puts s) }
        ensures stands { OnOk result ((puts : List Stamped) → StandsFor self.old puts → StandsFor self.new (puts ++ s ∷ [])) }
        ensures count { OnOk result (length self.new.kept ≤ length self.old.kept + 1) }
        ensures others { OnOk result (self.new ≡ record self.old { kept = self.new.kept }) }
        ensures memory { OnErr result ((puts : List Stamped) → StandsFor self.old puts → counting self.old.timeout self.old.frozen s.track.key puts ≡ []) }
        ensures err { OnErr result (self.new ≡ self.old) }
    {
        if let Some(put) = self.kept.put_over(&s) {
            return Ok(put);
        }
        if counts(&s, self.timeout, self.frozen) {
            self.kept.insert(s)?;
        }
        Ok(Put::Kept)
    }

    /// Takes the table of a cycle, and lets go what has timed out by then. It takes memory for the rows.
    pub fn freeze(&mut self, k: u64) -> Result<Frozen, NoMemory>
        requires { CanFreeze self.old k }
        ensures cycle { IfOk result (λ frozen. frozen.cycle ≡ k) }
        ensures time { IfOk result (λ frozen. frozen.time ≡ cycle_time self.old.start self.old.period k) }
        ensures rows { IfOk result (λ frozen. (puts : List Stamped) → StandsFor self.old puts → AreDue k puts → frozen.rows ≡ table self.old.start self.old.period self.old.timeout k puts) }
        ensures stands { OnOk result ((puts : List Stamped) → StandsFor self.old puts → StandsFor self.new puts) }
        ensures others { OnOk result (self.new ≡ record self.old { frozen = Some (cycle_time self.old.start self.old.period k); kept = self.new.kept }) }
        ensures memory { OnErr result ((puts : List Stamped) → StandsFor self.old puts → AreDue k puts → table self.old.start self.old.period self.old.timeout k puts ≢ []) }
        ensures err { OnErr result (self.new ≡ self.old) }
    {
        let time = cycle_time(self.start, self.period, k);
        let rows = self.kept.rows_at(self.alloc, time, self.timeout)?;
        self.kept.keep_recent(time, self.timeout);
        self.frozen = Some(time);
        Ok(Frozen {
            cycle: k,
            time,
            rows,
        })
    }
}

/// When a cycle ends.
fn cycle_time(start: i64, period: i64, k: u64) -> i64
    requires { IsTime (cycle_time start period k) }
    ensures { result ≡ cycle_time start period k }
{
    (i128::from(start) + (i128::from(k) + 1) * i128::from(period)) as i64
}

/// A record counts: no table was taken yet, or it was told at most the timeout before the last one's time.
fn counts(s: &Stamped, timeout: i64, frozen: Option<i64>) -> bool
    ensures { result ≡ counts timeout frozen s.now }
{
    match frozen {
        None => true,
        Some(time) => is_recent(s, time, timeout),
    }
}
