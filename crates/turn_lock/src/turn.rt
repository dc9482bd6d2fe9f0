//! The turn and its seats.
ghost use Rattle.std.specs.Prelude.{◌≡◌, ℕ, ◌+◌, ◌*◌, ◌<◌, true, false, Some, [], ◌∷◌, ◌++◌, length, IfOk, IfErr, IsErr, IsOk};
ghost use mathlib.Core.List.{IsPrefix};
ghost use Rattle.turn_lock.specs.Histories.{entries_of};
ghost use Rattle.turn_lock.specs.Words.{IsFree, last_give};
ghost use Rattle.turn_lock.specs.Seats.{Accounts, AllJoined, Misses, Takes, counted, given, joined_with, newcomer, opened};

use crate::rule::{Compare, Cut, Give, Glue, Load, Logged, OneHistory, Said, Try, View};
use crate::{Busy, NoMemory};
use atomic_table::{Refused, Seat, Table};
use std::alloc::{AllocError, Global};
use std::marker::{Brand, Model};
use std::snapshot::Snapshot;

// The free word before the last give.
const LAST: u64 = u64::MAX - 3;

/// One value that at most one seat has at a time, and that nobody waits for.
/// Contracts see which turn it is.
#[derive(Drop)]
pub struct Turn<T: Logged> {
    table: Table<Option<T>, View<T::Entry>, Snapshot<T>, OneHistory, Global>,
}

impl<T: Logged> Model for Turn<T> {
    ghost use Rattle.std.specs.Prelude.{◌≡◌};
    ghost use Rattle.atomic_table.specs.Seated.{TableId, table_id_coded};

    ghost Value = { TableId };

    ghost coded = { table_id_coded };

    ghost view = { λ t. t.table.shared.table_id };

    ghost invariant = { λ t. (t.table.shared.table_id.words ≡ 1) × (t.table.shared.table_id.slots ≡ 1) };
}

/// What one actor takes the turn with. Contracts see the history that it has seen.
#[derive(Drop)]
pub struct TurnSeat<T: Logged> {
    seat: Seat<Option<T>, View<T::Entry>>,
    // The free word that it found, while it holds the turn.
    word: u64,
}

impl<T: Logged> Model for TurnSeat<T> {
    ghost use Rattle.turn_lock.specs.Seats.{SeatView};
    ghost use Rattle.turn_lock.specs.Steps.{shown, IsSeat};

    ghost Value = { SeatView T.Entry };

    ghost view = { λ s. shown s.seat.table_id s.seat.me.0 };

    ghost invariant = { λ s. IsSeat s.seat.table_id s.seat.me s.word };
}

// The word after a give, from the free word before it.
fn next_word(word: u64) -> u64
    requires { (gives : ℕ) × (word ≡ 2 * gives) × (gives < last_give) }
    ensures { (gives : ℕ) → word ≡ 2 * gives → IsFree (gives + 1) result }
{
    if word >= LAST { u64::MAX } else { word + 2 }
}

impl<T: Logged + Drop> Turn<T> {
    /// A turn with this value at home, and its first seat.
    pub fn new(alloc: Global, value: T) -> Result<(Turn<T>, TurnSeat<T>), NoMemory>
        requires { T.stands value [] }
        ensures { IfOk result (λ made. made.1 ≡ opened made.0 (T.setting value)) }
    {
        let key = Snapshot::of(&value);
        let mut slots = Vec::with_capacity(alloc, 1)?;
        slots.push_reserved(Some(value));
        match Table::new(alloc, &[0], slots, &key) {
            Ok((table, seat)) => Ok((Turn { table }, TurnSeat { seat, word: 0 })),
            Err(Refused { slots: _ }) => Err(AllocError),
        }
    }
}

impl<T: Logged> Turn<T> {
    /// Takes the value, where the turn is free. One load and one exchange.
    pub fn take(&self, seat: &mut TurnSeat<T>) -> Result<T, Busy>
        requires { seat.old.turn ≡ self.now }
        ensures value { IfOk result (λ value. T.stands value seat.new.seen × (T.setting value ≡ seat.new.setting)) }
        ensures begins { IfOk result (λ _. IsPrefix seat.old.seen seat.new.seen) }
        ensures taken { IfOk result (λ _. Takes seat.old seat.new) }
        ensures last { IfOk result (λ _. length seat.new.seen < last_give) }
        ensures over { length seat.old.seen ≡ last_give → IsErr result }
        ensures busy { IfErr result (λ found. Misses seat.old seat.new found.0) }
        ensures accounts { Accounts seat.new }
    {
        let shared = &self.table.shared;
        let loaded = shared.load::<Load>(&mut seat.seat, 0);
        let free = loaded - loaded % 2;
        let found = shared.compare_exchange::<Try>(&mut seat.seat, 0, free, free + 1);
        if found != free {
            return Err(Busy(found));
        }
        seat.word = free;
        Ok(shared.exchange(&mut seat.seat, 0, None).unwrap())
    }

    /// Gives the turn back with a value, and enters what was done.
    pub fn give(&self, seat: &mut TurnSeat<T>, value: T, entry: &T::Entry)
        requires turn { seat.old.turn ≡ self.now }
        requires holds { seat.old.holds ≡ true }
        requires setting { T.setting value ≡ seat.old.setting }
        requires stands { T.stands value (seat.old.seen ++ (seat.old.actor, entry.now) ∷ []) }
        ensures given { seat.new ≡ given seat.old entry.now }
        ensures accounts { Accounts seat.new }
    {
        self.give_as::<Brand>(seat, value, entry);
    }

    fn give_as<A: Said<T::Entry>>(&self, seat: &mut TurnSeat<T>, value: T, entry: &T::Entry)
        requires said { A.entry ≡ Some entry.now }
        requires turn { seat.old.turn ≡ self.now }
        requires holds { seat.old.holds ≡ true }
        requires setting { T.setting value ≡ seat.old.setting }
        requires stands { T.stands value (seat.old.seen ++ (seat.old.actor, entry.now) ∷ []) }
        ensures given { seat.new ≡ given seat.old entry.now }
        ensures accounts { Accounts seat.new }
    {
        let shared = &self.table.shared;
        let next = next_word(seat.word);
        let taken_out = shared.exchange(&mut seat.seat, 0, Some(value));
        let None = taken_out else { unreachable!() };
        shared.swap::<Give<A>>(&mut seat.seat, 0, next);
    }

    /// One seat more, with the next number, that has seen as much as this first seat.
    pub fn split(&self, seat: &mut TurnSeat<T>) -> Result<TurnSeat<T>, NoMemory>
        requires turn { seat.old.turn ≡ self.now }
        requires first { seat.old.actor ≡ 0 }
        requires idle { seat.old.holds ≡ false }
        ensures made { IfOk result (λ made. made ≡ newcomer seat.old) }
        ensures counted { IfOk result (λ _. seat.new ≡ counted seat.old) }
        ensures refused { IfErr result (λ _. seat.new ≡ seat.old) }
        ensures never_refused { IsOk result }
        ensures accounts { Accounts seat.new }
    {
        let made = self.table.shared.split_seat::<Cut>(&mut seat.seat);
        Ok(TurnSeat {
            seat: made,
            word: 0,
        })
    }

    /// The first seat takes in another, which ends.
    pub fn join(&self, seat: &mut TurnSeat<T>, ended: TurnSeat<T>)
        requires turn { (seat.old.turn ≡ self.now) × (ended.turn ≡ self.now) }
        requires first { seat.old.actor ≡ 0 }
        requires idle { (seat.old.holds ≡ false) × (ended.holds ≡ false) }
        ensures joined { seat.new ≡ joined_with seat.old ended }
        ensures begins { IsPrefix seat.old.seen seat.new.seen }
        ensures begins_ended { IsPrefix ended.seen seat.new.seen }
        ensures ended { entries_of ended.actor seat.new.seen ≡ ended.mine }
        ensures accounts { Accounts seat.new }
    {
        let TurnSeat {
            seat: other,
            word: _,
        } = ended;
        let shared = &self.table.shared;
        shared.join_seat::<Glue>(&mut seat.seat, other);
        shared.load::<Compare>(&mut seat.seat, 0);
    }

    /// The value, once each other seat was joined.
    pub fn close(self, seat: TurnSeat<T>) -> T
        requires turn { seat.turn ≡ self }
        requires first { seat.actor ≡ 0 }
        requires idle { seat.holds ≡ false }
        requires joined { AllJoined seat }
        ensures stands { T.stands result seat.seen }
        ensures setting { T.setting result ≡ seat.setting }
    {
        let Turn { table } = self;
        let TurnSeat { seat, word: _ } = seat;
        let mut closed = table.close_with(seat);
        let value = closed.take(0).unwrap();
        closed.free();
        value
    }
}
