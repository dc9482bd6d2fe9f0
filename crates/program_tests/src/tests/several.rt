//! Several feeds, and alerts that begin ahead.

use super::feeds::{ALERT, FIRST, SECOND, half_refused, joined};
use super::outside::{
    NAME, OTHER, Outside, Ran, SITE, WORLD_FAULT, expect, expect_faults, expect_report, replayed,
    run_words,
};
use super::plots::{HEAD_ON, Plot};
use super::site::{SITE_A, changed};
use std::alloc::{AllocError, Global};
use std::test::Fail;

/// The alert of two tracks 20 km from head to head, of which one hit is enough.
const AHEAD: [u8; 42] = [
    0x04, 0x00, 0x2a, 0xdd, 0x91, 0x42, 0x19, 0x64, 0x07, 0x46, 0x52, 0x00, 0x00, 0x00, 0x02, 0x01,
    0x01, 0xfc, 0x00, 0x0a, 0xbe, 0x00, 0x14, 0x00, 0x00, 0x9c, 0x40, 0x00, 0x00, 0x00, 0x00, 0x00,
    0x00, 0x01, 0x02, 0x07, 0x07, 0x19, 0x0a, 0x19, 0x0a, 0x00,
];

/// The alert of two tracks that were told on both sides of midnight.
const OVER_MIDNIGHT: [u8; 42] = [
    0x04, 0x00, 0x2a, 0xdd, 0x91, 0x42, 0x19, 0x64, 0x07, 0x00, 0x01, 0x00, 0x00, 0x00, 0x02, 0x01,
    0x01, 0xfc, 0x00, 0x00, 0x00, 0x00, 0x03, 0xe2, 0x00, 0x1e, 0x55, 0x00, 0x00, 0x00, 0x08, 0x00,
    0x08, 0x01, 0x02, 0x07, 0x07, 0x19, 0x0a, 0x19, 0x0a, 0x03,
];

/// The second track of `SECOND`, 5,000 m east of the first and 200 ft above it, flying west.
const WESTBOUND: Plot = Plot {
    number: Some(0x0102),
    place: Some((10_000, 0)),
    speed: Some((-1000, 0)),
    level: Some(1328),
    ..HEAD_ON
};

/// Runs these two feeds under a site.
fn both(alloc: Global, site: &str, feed: &[u8], other: &[u8]) -> Result<Ran, AllocError> {
    let outside = Outside {
        site: site.as_bytes(),
        other,
        ..Outside::of(feed)
    };
    run_words(alloc, outside, &["replay", "--site", SITE, NAME, OTHER])
}

/// A record of the second feed that is a second older is outranked, in either order of the feeds.
#[test]
fn an_older_record_in_another_feed(rt: HostRuntime) -> Result<(), Fail> {
    let alloc = rt.alloc();
    let site = SITE_A;
    let feed = joined(alloc, &[&FIRST, &SECOND])?;
    let older = Plot {
        time: Some(4_608_128),
        ..HEAD_ON
    };
    let other = older.block(alloc)?;
    let ran = both(alloc, site, &feed, &other)?;
    expect(&rt, &ran, 0, &ALERT, "an older record");
    let report = "cycles 1
feed 0 blocks 2 passed 0 records 2 tracks 2 end clean
feed 1 blocks 1 passed 0 records 1 tracks 1 end clean
alerts 1
messages 1
";
    expect_report(&rt, &ran, report, "an older record");
    let ran = both(alloc, site, &other, &feed)?;
    expect(&rt, &ran, 0, &ALERT, "an older record first");
    Ok(())
}

/// At equal times the lower feed's record counts, and the last one of a feed.
#[test]
fn records_at_one_time(rt: HostRuntime) -> Result<(), Fail> {
    let alloc = rt.alloc();
    let site = SITE_A;
    let far = Plot {
        place: Some((-400_000, 0)),
        ..HEAD_ON
    };
    let far = far.block(alloc)?;
    let feed = joined(alloc, &[&FIRST, &SECOND])?;
    let ran = both(alloc, site, &feed, &far)?;
    expect(&rt, &ran, 0, &ALERT, "the lower feed");
    expect(
        &rt,
        &both(alloc, site, &far, &feed)?,
        0,
        &[],
        "the higher feed",
    );
    let feed = joined(alloc, &[&far, &SECOND, &FIRST])?;
    expect(
        &rt,
        &both(alloc, site, &feed, &[])?,
        0,
        &ALERT,
        "the later place",
    );
    Ok(())
}

/// One track in eight feeds is one row; nothing else alerts with it.
#[test]
fn one_track_in_eight_feeds(rt: HostRuntime) -> Result<(), Fail> {
    let alloc = rt.alloc();
    let words = [
        "replay", "--site", SITE, NAME, NAME, NAME, NAME, NAME, NAME, NAME, OTHER,
    ];
    let outside = Outside {
        other: &SECOND,
        ..Outside::of(&FIRST)
    };
    expect(
        &rt,
        &run_words(alloc, outside, &words)?,
        0,
        &ALERT,
        "eight feeds",
    );
    Ok(())
}

/// The tracks are told 116 ticks before midnight and 40 after it.
#[test]
fn over_midnight(rt: HostRuntime) -> Result<(), Fail> {
    let alloc = rt.alloc();
    let site = changed(alloc, SITE_A, "start = 36000", "start = 86398")?;
    let before = Plot {
        time: Some(11_059_100),
        ..HEAD_ON
    };
    let after = Plot {
        time: Some(40),
        ..WESTBOUND
    };
    let feed = joined(alloc, &[&before.block(alloc)?, &after.block(alloc)?])?;
    expect(
        &rt,
        &both(alloc, &site, &feed, &[])?,
        0,
        &OVER_MIDNIGHT,
        "midnight",
    );
    Ok(())
}

/// A hit that isn't urgent alerts at once where one hit is enough, and not where two are wanted.
#[test]
fn a_hit_that_is_not_urgent(rt: HostRuntime) -> Result<(), Fail> {
    let alloc = rt.alloc();
    let site = changed(alloc, SITE_A, "stca = [2, 3, 2]", "stca = [1, 3, 2]")?;
    let east = Plot {
        place: Some((-1000, 0)),
        ..HEAD_ON
    };
    let west = Plot {
        place: Some((41_000, 0)),
        level: Some(1320),
        ..WESTBOUND
    };
    let feed = joined(alloc, &[&east.block(alloc)?, &west.block(alloc)?])?;
    expect(
        &rt,
        &both(alloc, &site, &feed, &[])?,
        0,
        &AHEAD,
        "one hit is enough",
    );
    expect(
        &rt,
        &replayed(alloc, Outside::of(&feed))?,
        0,
        &[],
        "two are wanted",
    );
    Ok(())
}

/// A refusal in the second feed is told as that feed's; a name that is lacking and a read that fails are told
/// before a cycle is made.
#[test]
fn faults_of_the_second_feed(rt: HostRuntime) -> Result<(), Fail> {
    let alloc = rt.alloc();
    let half = half_refused(alloc)?;
    let ran = both(alloc, SITE_A, &SECOND, &half)?;
    expect(&rt, &ran, 7, &ALERT, "a refusal");
    let report = "cycles 1
feed 0 blocks 1 passed 0 records 1 tracks 1 end clean
feed 1 blocks 1 passed 0 records 1 tracks 1 end clean
refused feed 1 at 28 fault 3 item 2
alerts 1
messages 1
";
    expect_report(&rt, &ran, report, "a refusal");
    let words = ["replay", "--site", SITE, NAME, "none.ast"];
    let ran = run_words(alloc, Outside::of(&FIRST), &words)?;
    expect(&rt, &ran, 4, &[], "a name that is lacking");
    expect_report(
        &rt,
        &ran,
        "cannot open none.ast\n",
        "a name that is lacking",
    );
    let outside = Outside {
        failing_other_reads: &[0],
        ..Outside::of(&FIRST)
    };
    let ran = run_words(alloc, outside, &["replay", "--site", SITE, NAME, OTHER])?;
    expect_faults(&rt, &ran, 4, &[], WORLD_FAULT, "a read that fails");
    expect_report(&rt, &ran, "read failed: b.ast\n", "a read that fails");
    Ok(())
}
