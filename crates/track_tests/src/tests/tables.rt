//! Stamps and tables, each answer worked out by hand.
ghost use Rattle.std.specs.Prelude.{◌≤◌, ◌^◌, length, unsigned_abs};
ghost use Rattle.track_table.specs.Kept.{CanFreeze};

use std::process::Abort;
use std::test::Fail;
use track_motion::{Stamped, Track, TrackKey};
use track_table::{FeedClock, Frozen, NoMemory, Put, Table};

/// The cycles begin at 36,000 s and are four seconds long; a record is a row for 60 s.
const START: i64 = 4_608_000;

const PERIOD: i64 = 512;

const TIMEOUT: i64 = 7_680;

const EASTBOUND: Track = Track {
    key: TrackKey {
        sac: 25,
        sic: 10,
        number: 0x0101,
    },
    time: 4_608_256,
    x: 0,
    y: 0,
    vx: 1000,
    vy: 0,
    level: Some(1320),
    altitude: Some(1320),
    rate: 0,
    code: None,
    tentative: false,
    simulated: false,
    ended: false,
};

/// A record of a time of day.
fn timed(time: u32) -> Track {
    Track { time, ..EASTBOUND }
}

/// A record that a feed told at a time, in the first cycle.
fn told(at: i64, feed: u32) -> Stamped {
    Stamped {
        track: EASTBOUND,
        feed,
        place: 0,
        at,
        window: 0,
    }
}

/// A record of another track that the first feed told at a time.
fn told_of(at: i64, sac: u8, sic: u8, number: u16) -> Stamped {
    Stamped {
        track: Track {
            key: TrackKey { sac, sic, number },
            ..EASTBOUND
        },
        ..told(at, 0)
    }
}

/// The last message of the track.
fn ended(at: i64) -> Stamped {
    Stamped {
        track: Track {
            ended: true,
            ..EASTBOUND
        },
        ..told(at, 0)
    }
}

/// The cycle's table has these rows.
fn expect_rows(rt: &impl Abort, frozen: &Frozen, time: i64, rows: &[Stamped]) {
    assert_eq!(rt; frozen.time, time);
    assert_eq!(rt; frozen.rows.len(), rows.len());
    assert_eq!(rt; frozen.rows.as_slice(), rows, "at {time}");
}

/// The stamps of a feed: of each record the time of day, and then its time and its window.
fn expect_stamps(rt: &impl Abort, start: i64, rows: &[(u32, i64, u64)])
    requires start { unsigned_abs start ≤ 2 ^ 32 }
    requires few { length rows.now ≤ 16 }
{
    let mut clock = FeedClock::new(start, PERIOD);
    for (place, (time, at, window)) in rows.iter().enumerate() {
        let stamped = clock.stamp(timed(*time), 3, place as u64);
        assert_eq!(rt; (stamped.at, stamped.window), (*at, *window), "at {time}");
        assert_eq!(rt; (stamped.feed, stamped.place), (3, place as u64));
        assert_eq!(rt; stamped.track, timed(*time));
    }
}

#[test]
fn two_records_over_midnight(rt: HostRuntime) {
    let rows = [(11_059_100, 11_059_100, 0), (40, 11_059_240, 0)];
    expect_stamps(&rt, 11_058_944, &rows);
}

/// The third record comes late: the clock doesn't fall back, and its window is that of the latest time.
#[test]
fn a_record_before_the_start_and_one_at_the_end_of_a_cycle(rt: HostRuntime) {
    let rows = [
        (4_607_000, 4_607_000, 0),
        (4_608_512, 4_608_512, 1),
        (4_608_511, 4_608_511, 1),
    ];
    expect_stamps(&rt, START, &rows);
}

/// Two midnights pass; the last but one is told before those ahead of it.
#[test]
fn a_feed_over_two_midnights(rt: HostRuntime) {
    let rows = [
        (11_059_199, 11_059_199, 0),
        (0, 11_059_200, 0),
        (5_529_599, 16_588_799, 10_800),
        (11_059_198, 22_118_398, 21_600),
        (1, 22_118_401, 21_600),
        (11_059_199, 22_118_399, 21_600),
        (512, 22_118_912, 21_601),
    ];
    expect_stamps(&rt, 11_058_944, &rows);
}

/// From noon on: midnight is twelve hours early, and the tick before the next midnight lies ahead.
#[test]
fn half_a_day_early_and_a_tick_less(rt: HostRuntime) {
    expect_stamps(&rt, 5_529_600, &[(0, 0, 0)]);
    expect_stamps(&rt, 5_529_600, &[(11_059_199, 11_059_199, 10_799)]);
}

/// Puts records, each with this answer.
fn expect_puts(
    rt: &impl Abort,
    table: &mut Table,
    records: &[Stamped],
    answer: Put,
) -> Result<(), NoMemory>
    requires { CanFreeze table.old 0 }
    ensures { CanFreeze table.new 0 }
{
    for s in records {
        assert_eq!(rt; table.put(*s)?, answer, "{s:?}");
    }
    Ok(())
}

/// The second feed's record is a second older.
#[test]
fn an_older_record_is_superseded(rt: HostRuntime) -> Result<(), Fail> {
    let mut table = Table::new(rt.alloc(), START, PERIOD, TIMEOUT);
    let newer = told(4_608_256, 0);
    assert_eq!(rt; table.put(newer)?, Put::Kept);
    assert_eq!(rt; table.put(told(4_608_128, 1))?, Put::Superseded(newer));
    let frozen = table.freeze(0)?;
    expect_rows(&rt, &frozen, 4_608_512, &[newer]);
    Ok(())
}

#[test]
fn one_track_in_eight_feeds_at_one_time(rt: HostRuntime) -> Result<(), Fail> {
    let mut table = Table::new(rt.alloc(), START, PERIOD, TIMEOUT);
    let at = 4_608_100;
    let lowest = told(at, 0);
    expect_puts(
        &rt,
        &mut table,
        &[told(at, 4), told(at, 2), told(at, 1), lowest],
        Put::Kept,
    )?;
    expect_puts(
        &rt,
        &mut table,
        &[told(at, 7), told(at, 6), told(at, 5), told(at, 3)],
        Put::Superseded(lowest),
    )?;
    // The later place of the same feed outranks it, and an equal record doesn't.
    let later = Stamped { place: 1, ..lowest };
    assert_eq!(rt; table.put(later)?, Put::Kept);
    assert_eq!(rt; table.put(later)?, Put::Superseded(later));
    expect_rows(&rt, &table.freeze(0)?, 4_608_512, &[later]);
    Ok(())
}

#[test]
fn a_track_ends_and_begins_again_in_one_window(rt: HostRuntime) -> Result<(), Fail> {
    let mut table = Table::new(rt.alloc(), START, PERIOD, TIMEOUT);
    assert_eq!(rt; table.put(told(4_608_100, 0))?, Put::Kept);
    assert_eq!(rt; table.put(ended(4_608_200))?, Put::Kept);
    assert_eq!(rt;
        table.put(told(4_608_150, 0))?,
        Put::Superseded(ended(4_608_200))
    );
    expect_rows(&rt, &table.freeze(0)?, 4_608_512, &[]);
    assert_eq!(rt; table.put(told(4_608_300, 0))?, Put::Kept);
    expect_rows(&rt, &table.freeze(0)?, 4_608_512, &[told(4_608_300, 0)]);
    Ok(())
}

/// A record is a row 60 s after it was told, and a tick later it is none and counts no more.
#[test]
fn at_the_timeout_and_a_tick_past_it(rt: HostRuntime) -> Result<(), Fail> {
    let mut table = Table::new(rt.alloc(), START, PERIOD, TIMEOUT);
    assert_eq!(rt; table.put(told(4_600_832, 0))?, Put::Kept);
    assert_eq!(rt; table.put(told_of(4_600_831, 25, 10, 0x0102))?, Put::Kept);
    expect_rows(&rt, &table.freeze(0)?, 4_608_512, &[told(4_600_832, 0)]);
    assert_eq!(rt; table.put(told_of(4_600_000, 25, 10, 0x0102))?, Put::Kept);
    assert_eq!(rt;
        table.put(told(4_600_000, 0))?,
        Put::Superseded(told(4_600_832, 0))
    );
    expect_rows(&rt, &table.freeze(0)?, 4_608_512, &[told(4_600_832, 0)]);
    expect_rows(&rt, &table.freeze(1)?, 4_609_024, &[]);
    Ok(())
}

#[test]
fn rows_in_key_order(rt: HostRuntime) -> Result<(), Fail> {
    let mut table = Table::new(rt.alloc(), START, PERIOD, TIMEOUT);
    let rows = [
        told_of(4_608_001, 24, 11, 0x0999),
        told_of(4_608_009, 25, 9, 0x0777),
        told_of(4_608_003, 25, 10, 0x0101),
        told_of(4_608_002, 25, 10, 0x0102),
    ];
    expect_puts(
        &rt,
        &mut table,
        &[rows[3], rows[0], rows[2], rows[1]],
        Put::Kept,
    )?;
    expect_rows(&rt, &table.freeze(0)?, 4_608_512, &rows);
    Ok(())
}

/// Two hundred tracks, put from the last key to the first: those of odd numbers are rows, and the others were
/// told a tick too early.
#[test]
fn many_tracks_put_against_key_order(rt: HostRuntime) -> Result<(), Fail> {
    let mut table = Table::new(rt.alloc(), START, PERIOD, TIMEOUT);
    let mut puts = [told(4_600_831, 0); 200];
    let mut rows = [told(4_600_832, 0); 100];
    for i in 0..100 {
        puts[199 - 2 * i].track.key.number = 2 * i as u16;
        rows[i].track.key.number = 2 * i as u16 + 1;
        puts[198 - 2 * i] = rows[i];
    }
    expect_puts(&rt, &mut table, &puts, Put::Kept)?;
    expect_rows(&rt, &table.freeze(0)?, 4_608_512, &rows);
    Ok(())
}

/// Puts a record, once more where it was refused memory: the table was then as before.
fn put_again(
    rt: &impl Abort,
    table: &mut Table,
    s: Stamped,
    before: &[Stamped],
) -> Result<(), NoMemory>
    requires { CanFreeze table.old 0 }
    ensures { CanFreeze table.new 0 }
{
    if let Ok(put) = table.put(s) {
        assert_eq!(rt; put, Put::Kept);
        return Ok(());
    }
    expect_rows(rt, &table.freeze(0)?, 4_608_512, before);
    assert_eq!(rt; table.put(s)?, Put::Kept);
    Ok(())
}

/// A call that is refused memory leaves the table as it was: made again, it answers as if it was made once.
#[test]
fn want_of_memory(rt: HostRuntime) -> Result<(), Fail> {
    let mut table = Table::new(rt.alloc(), START, PERIOD, TIMEOUT);
    let mut rows = [told(4_608_001, 0); 30];
    for i in 0..30 {
        rows[i].track.key.number = i as u16;
        put_again(&rt, &mut table, rows[i], &rows[..i])?;
    }
    match table.freeze(0) {
        Ok(frozen) => expect_rows(&rt, &frozen, 4_608_512, &rows),
        Err(_) => expect_rows(&rt, &table.freeze(0)?, 4_608_512, &rows),
    }
    Ok(())
}
