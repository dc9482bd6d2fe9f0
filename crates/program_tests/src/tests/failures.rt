//! Words that ask for nothing, and calls of the outside that fail.

use super::feeds::{ALERT, FIRST, SECOND, joined};
use super::outside::{
    Faults, NAME, NO_FAULT, OUT_FAULT, Outside, SITE, WORLD_FAULT, expect, expect_faults,
    expect_report, replayed, run_words,
};
use super::told::HEAD_ON_REPORT;
use std::test::Fail;

/// What words that ask for nothing are answered with.
const USAGE: &str =
    "usage: safetynets replay --site FILE FEED...\n       safetynets run --site FILE --workers N FEED...\n";

#[test]
fn other_words(rt: HostRuntime) -> Result<(), Fail> {
    let alloc = rt.alloc();
    let feed = joined(alloc, &[&FIRST, &SECOND])?;
    let nine = [
        "replay", "--site", SITE, NAME, NAME, NAME, NAME, NAME, NAME, NAME, NAME, NAME,
    ];
    let others: [&[&str]; 9] = [
        &[],
        &["replay"],
        &["a.ast"],
        &["replay", NAME],
        &["replay", "--site", SITE],
        &nine,
        &["run", "--site", SITE, "--workers", "1", NAME],
        &["Replay", "--site", SITE, NAME],
        &["help"],
    ];
    for words in others {
        let ran = run_words(alloc, Outside::of(&feed), words)?;
        expect(&rt, &ran, 2, &[], "other words");
        expect_report(&rt, &ran, USAGE, "other words");
        assert_eq!(rt; ran.opens, 0, "no name is opened");
    }
    Ok(())
}

/// A run with its status, what it writes to `out`, the counts of faults, and what it writes to `report`.
type Case<'a> = (Outside<'a>, u8, &'a [u8], Faults, &'a str, &'a str);

/// A failed open, read or write is counted once, and a name that isn't there isn't counted.
#[test]
fn failures_and_their_counts(rt: HostRuntime) -> Result<(), Fail> {
    let alloc = rt.alloc();
    let feed = joined(alloc, &[&FIRST, &SECOND])?;
    let whole = Outside::of(&feed);
    let missing = Outside {
        asked: "none.ast",
        ..whole
    };
    let unopened = Outside {
        failing_opens: &[1],
        ..whole
    };
    let unread = Outside {
        cuts: &[10, 10, 10],
        failing_reads: &[2],
        ..whole
    };
    let unwritten = Outside {
        takes: &[20],
        failing_writes: &[1],
        ..whole
    };
    let full = Outside {
        takes: &[0],
        ..whole
    };
    let cases: [Case<'_>; 6] = [
        (whole, 0, &ALERT, NO_FAULT, HEAD_ON_REPORT, "nothing fails"),
        (
            missing,
            4,
            &[],
            NO_FAULT,
            "cannot open none.ast\n",
            "a name that isn't there",
        ),
        (
            unopened,
            4,
            &[],
            WORLD_FAULT,
            "cannot open a.ast\n",
            "an open that fails",
        ),
        (
            unread,
            4,
            &[],
            WORLD_FAULT,
            "read failed: a.ast\n",
            "the third read fails",
        ),
        (
            unwritten,
            5,
            &ALERT[..20],
            OUT_FAULT,
            "write failed\n",
            "the second write fails",
        ),
        (
            full,
            5,
            &[],
            OUT_FAULT,
            "write failed\n",
            "a sink that takes nothing",
        ),
    ];
    for (outside, status, out, faults, report, what) in cases {
        let ran = replayed(alloc, outside)?;
        expect_faults(&rt, &ran, status, out, faults, what);
        expect_report(&rt, &ran, report, what);
        assert_eq!(rt; ran.opens, 2, "{what}");
    }
    Ok(())
}

/// Six reads give the feed, and a seventh its end. Where one of them fails there is no further one.
#[test]
fn each_read_failing_in_turn(rt: HostRuntime) -> Result<(), Fail> {
    let alloc = rt.alloc();
    let feed = joined(alloc, &[&FIRST, &SECOND])?;
    for call in 0..7u64 {
        let outside = Outside {
            cuts: &[10; 5],
            failing_reads: &[call],
            ..Outside::of(&feed)
        };
        let ran = replayed(alloc, outside)?;
        expect_faults(&rt, &ran, 4, &[], WORLD_FAULT, "a read that fails");
        // The site is read in two calls.
        assert_eq!(rt; ran.reads, call + 3);
    }
    Ok(())
}
