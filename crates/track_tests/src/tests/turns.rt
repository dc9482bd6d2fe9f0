//! A counter under the lock, in one thread and in several.
ghost use Rattle.std.specs.Prelude.{◌≡◌, ◌+◌, ◌^◌, ◌<◌, ◌≤◌, ◌++◌, ◌∷◌, [], false, IfOk, IfErr, sum_by};
ghost use Rattle.turn_lock.specs.Seats.{Accounts};

use std::alloc::Global;
use std::process::Abort;
use std::test::*;
use std::thread::{Threads, join_mut};
use turn_lock::{Busy, Logged, NoMemory, Turn, TurnSeat};

/// A counter that stands for the amounts that were added to it.
#[derive(Drop)]
struct Tally {
    total: u64,
    limit: u64,
    ghost within: { (total ≤ limit) × (limit < 2 ^ 32) },
}

impl Logged for Tally {
    ghost use Rattle.std.specs.Prelude.{◌≡◌, ◌∷◌, [], pos, sum_by};

    type Entry = u64;

    ghost stands = { λ tally history. tally.total ≡ sum_by (λ entry. entry.1) history };

    ghost setting = { λ tally. pos tally.limit ∷ [] };
}

impl Tally {
    fn new() -> Tally
        ensures { result.total ≡ 0 }
    {
        Tally {
            total: 0,
            limit: u32::MAX as u64,
        }
    }

    // Adds as much of the amount as there is room for, and answers how much that was.
    fn add(&mut self, amount: u64) -> u64
        ensures added { self.new.total ≡ self.old.total + result }
        ensures small { result < 2 ^ 32 }
        ensures limit { self.new.limit ≡ self.old.limit }
    {
        let added = amount.min(self.limit - self.total);
        self.total += added;
        added
    }
}

// One try to add.
fn add(turn: &Turn<Tally>, seat: &mut TurnSeat<Tally>, amount: u64) -> Result<u64, Busy>
    requires turn { seat.old.turn ≡ turn.now }
    requires idle { seat.old.holds ≡ false }
    ensures seat { seat.new ≡ record seat.old { seen = seat.new.seen; mine = seat.new.mine; tried = seat.new.tried } }
    ensures added { IfOk result (λ added. seat.new.mine ≡ seat.old.mine ++ (seat.old.actor, added) ∷ []) }
    ensures small { IfOk result (λ added. added < 2 ^ 32) }
    ensures busy { IfErr result (λ _. seat.new.mine ≡ seat.old.mine) }
{
    let mut tally = turn.take(seat)?;
    let added = tally.add(amount);
    turn.give(seat, tally, &added);
    Ok(added)
}

// So many tries to add; the sum of what was added.
fn add_often(turn: &Turn<Tally>, seat: &mut TurnSeat<Tally>, tries: u16) -> u64
    requires turn { seat.old.turn ≡ turn.now }
    requires idle { seat.old.holds ≡ false }
    ensures seat { seat.new ≡ record seat.old { seen = seat.new.seen; mine = seat.new.mine; tried = seat.new.tried } }
    ensures sum { sum_by (λ entry. entry.1) seat.new.mine ≡ sum_by (λ entry. entry.1) seat.old.mine + result }
    ensures small { result < 2 ^ 48 }
{
    let mut sum = 0;
    for i in 0..tries {
        if let Ok(added) = add(turn, seat, i as u64) {
            sum += added;
        }
    }
    sum
}

// The counter of a turn of two seats is the sum of what each of them added.
fn total_of_two(turn: Turn<Tally>, mut first: TurnSeat<Tally>, second: TurnSeat<Tally>) -> u64
    requires turn { (first.turn ≡ turn) × (second.turn ≡ turn) }
    requires numbers { (first.actor ≡ 0) × (second.actor ≡ 1) }
    requires made { (first.made ≡ 2) × (first.joined ≡ []) }
    requires idle { (first.holds ≡ false) × (second.holds ≡ false) }
    ensures { result ≡ sum_by (λ entry. entry.1) first.mine + sum_by (λ entry. entry.1) second.mine }
{
    turn.join(&mut first, second);
    turn.close(first).total
}

// Two threads add: the counter is the sum of what each of them added.
fn add_in_two_threads<R: Threads + Sync>(
    rt: &R,
    alloc: Global,
    tries: u16,
) -> Result<(u64, u64, u64), NoMemory>
    ensures { IfOk result (λ r. r.0 ≡ r.1 + r.2) }
{
    let (turn, mut first) = Turn::new(alloc, Tally::new())?;
    let mut second = turn.split(&mut first)?;
    let (one, two) = join_mut(
        rt,
        &mut || add_often(&turn, &mut first, tries),
        &mut || add_often(&turn, &mut second, tries),
    );
    Ok((total_of_two(turn, first, second), one, two))
}

// The same of four seats.
fn total_of_four(
    turn: Turn<Tally>,
    mut first: TurnSeat<Tally>,
    second: TurnSeat<Tally>,
    third: TurnSeat<Tally>,
    fourth: TurnSeat<Tally>,
) -> u64
    requires turn { (first.turn ≡ turn) × (second.turn ≡ turn) × (third.turn ≡ turn) × (fourth.turn ≡ turn) }
    requires numbers { (first.actor ≡ 0) × (second.actor ≡ 1) × (third.actor ≡ 2) × (fourth.actor ≡ 3) }
    requires made { (first.made ≡ 4) × (first.joined ≡ []) }
    requires idle { (first.holds ≡ false) × (second.holds ≡ false) × (third.holds ≡ false) × (fourth.holds ≡ false) }
    ensures { result ≡ sum_by (λ entry. entry.1) first.mine + sum_by (λ entry. entry.1) second.mine + sum_by (λ entry. entry.1) third.mine + sum_by (λ entry. entry.1) fourth.mine }
{
    turn.join(&mut first, third);
    turn.join(&mut first, second);
    turn.join(&mut first, fourth);
    turn.close(first).total
}

// Two of the seats add, each in a thread of its own.
fn add_beside<R: Threads + Sync>(
    rt: &R,
    turn: &Turn<Tally>,
    one: &mut TurnSeat<Tally>,
    two: &mut TurnSeat<Tally>,
    tries: u16,
) -> u64
    requires turn { (one.old.turn ≡ turn.now) × (two.old.turn ≡ turn.now) }
    requires idle { (one.old.holds ≡ false) × (two.old.holds ≡ false) }
    ensures one { one.new ≡ record one.old { seen = one.new.seen; mine = one.new.mine; tried = one.new.tried } }
    ensures two { two.new ≡ record two.old { seen = two.new.seen; mine = two.new.mine; tried = two.new.tried } }
    ensures sum { sum_by (λ entry. entry.1) one.new.mine + sum_by (λ entry. entry.1) two.new.mine ≡ sum_by (λ entry. entry.1) one.old.mine + sum_by (λ entry. entry.1) two.old.mine + result }
    ensures small { result < 2 ^ 49 }
{
    let (first, second) = join_mut(
        rt,
        &mut || add_often(turn, one, tries),
        &mut || add_often(turn, two, tries),
    );
    first + second
}

// Four threads add: the counter is the sum of what each pair of them added.
fn add_in_four_threads<R: Threads + Sync>(
    rt: &R,
    alloc: Global,
    tries: u16,
) -> Result<(u64, u64, u64), NoMemory>
    ensures { IfOk result (λ r. r.0 ≡ r.1 + r.2) }
{
    let (turn, mut first) = Turn::new(alloc, Tally::new())?;
    let mut second = turn.split(&mut first)?;
    let mut third = turn.split(&mut first)?;
    let mut fourth = turn.split(&mut first)?;
    let (one, two) = join_mut(
        rt,
        &mut || -> u64
            requires { (first.turn ≡ turn) × (second.turn ≡ turn) × (first.holds ≡ false) × (second.holds ≡ false) }
            ensures one { first.exit ≡ record first.entry { seen = first.exit.seen; mine = first.exit.mine; tried = first.exit.tried } }
            ensures two { second.exit ≡ record second.entry { seen = second.exit.seen; mine = second.exit.mine; tried = second.exit.tried } }
            ensures sum { sum_by (λ entry. entry.1) first.exit.mine + sum_by (λ entry. entry.1) second.exit.mine ≡ sum_by (λ entry. entry.1) first.entry.mine + sum_by (λ entry. entry.1) second.entry.mine + result }
        { add_beside(rt, &turn, &mut first, &mut second, tries) },
        &mut || -> u64
            requires { (third.turn ≡ turn) × (fourth.turn ≡ turn) × (third.holds ≡ false) × (fourth.holds ≡ false) }
            ensures one { third.exit ≡ record third.entry { seen = third.exit.seen; mine = third.exit.mine; tried = third.exit.tried } }
            ensures two { fourth.exit ≡ record fourth.entry { seen = fourth.exit.seen; mine = fourth.exit.mine; tried = fourth.exit.tried } }
            ensures sum { sum_by (λ entry. entry.1) third.exit.mine + sum_by (λ entry. entry.1) fourth.exit.mine ≡ sum_by (λ entry. entry.1) third.entry.mine + sum_by (λ entry. entry.1) fourth.entry.mine + result }
        { add_beside(rt, &turn, &mut third, &mut fourth, tries) },
    );
    Ok((total_of_four(turn, first, second, third, fourth), one, two))
}

#[test]
fn the_second_seat_is_busy_until_the_first_gives(rt: HostRuntime) -> Result<(), Fail> {
    let (turn, mut first) = Turn::new(rt.alloc(), Tally::new())?;
    let mut second = turn.split(&mut first)?;
    let Ok(mut tally) = turn.take(&mut first) else {
        panic!(rt; "nobody else takes")
    };
    assert!(rt; turn.take(&mut second).err() == Some(Busy(1)));
    assert!(rt; turn.take(&mut first).err() == Some(Busy(1)));
    let added = tally.add(5);
    turn.give(&mut first, tally, &added);
    let Ok(tally) = turn.take(&mut second) else {
        panic!(rt; "the first gave")
    };
    assert!(rt; tally.total == 5);
    assert!(rt; turn.take(&mut first).err() == Some(Busy(3)));
    turn.give(&mut second, tally, &0);
    turn.join(&mut first, second);
    assert!(rt; turn.close(first).total == 5);
    Ok(())
}

#[test]
fn one_seat_takes_and_gives_often(rt: HostRuntime) -> Result<(), Fail> {
    let (turn, mut seat) = Turn::new(rt.alloc(), Tally::new())?;
    assert!(rt; add_often(&turn, &mut seat, 5000) == 4999 * 5000 / 2);
    assert!(rt; turn.close(seat).total == 4999 * 5000 / 2);
    Ok(())
}

#[test]
fn two_threads_add(rt: HostRuntime) -> Result<(), Fail> {
    let (total, one, two) = add_in_two_threads(&rt, rt.alloc(), 20000)?;
    assert!(rt; total == one + two && one > 0 && two > 0);
    Ok(())
}

#[test]
fn four_threads_add(rt: HostRuntime) -> Result<(), Fail> {
    let (total, one, two) = add_in_four_threads(&rt, rt.alloc(), 20000)?;
    assert!(rt; total == one + two && one > 0 && two > 0);
    Ok(())
}

// So many seats are made and let go; how many.
fn split_often(turn: &Turn<Tally>, first: &mut TurnSeat<Tally>, times: u16) -> u16
    requires turn { first.old.turn ≡ turn.now }
    requires first { first.old.actor ≡ 0 }
    requires idle { first.old.holds ≡ false }
    ensures seat { first.new ≡ record first.old { made = first.new.made } }
    ensures made { first.new.made ≡ first.old.made + result }
    ensures all { result ≡ times }
{
    let mut made = 0;
    for i in 0..times {
        if let Ok(_seat) = turn.split(first) {
            made = i + 1;
        }
    }
    made
}

#[test]
fn a_split_takes_no_memory(rt: HostRuntime) -> Result<(), Fail> {
    let (turn, mut first) = Turn::new(rt.alloc(), Tally::new())?;
    assert!(rt; split_often(&turn, &mut first, 1000) == 1000);
    assert!(rt; add(&turn, &mut first, 7).is_ok());
    Ok(())
}

#[test]
fn a_turn_that_is_dropped_leaves_a_taken_value(rt: HostRuntime) -> Result<(), Fail> {
    let (turn, mut seat) = Turn::new(rt.alloc(), Tally::new())?;
    let Ok(mut tally) = turn.take(&mut seat) else {
        panic!(rt; "nobody else takes")
    };
    drop(turn);
    drop(seat);
    assert!(rt; tally.add(3) == 3 && tally.total == 3);
    Ok(())
}
