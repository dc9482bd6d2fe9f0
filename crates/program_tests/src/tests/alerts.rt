//! Whole feeds, and the bytes of their alerts.

use super::feeds::{ALERT, FIRST, SECOND, TRACKER, TRACKER_ALERTS, USUAL, block_of, joined};
use super::outside::{Outside, expect, replayed};
use std::test::Fail;

#[test]
fn two_tracks_head_on(rt: HostRuntime) -> Result<(), Fail> {
    let alloc = rt.alloc();
    let cases = [
        ([FIRST, SECOND], "two blocks"),
        ([SECOND, FIRST], "the higher key first"),
    ];
    for ([one, other], what) in cases {
        let feed = joined(alloc, &[&one, &other])?;
        expect(&rt, &replayed(alloc, Outside::of(&feed))?, 0, &ALERT, what);
    }
    Ok(())
}

#[test]
fn one_track_or_none(rt: HostRuntime) -> Result<(), Fail> {
    let cases: [(&[u8], &str); 2] = [(&FIRST, "one track"), (&[], "an empty feed")];
    for (feed, what) in cases {
        expect(&rt, &replayed(rt.alloc(), Outside::of(feed))?, 0, &[], what);
    }
    Ok(())
}

#[test]
fn a_usual_trackers_record(rt: HostRuntime) -> Result<(), Fail> {
    let alloc = rt.alloc();
    let blocks = joined(alloc, &[&USUAL, &SECOND])?;
    let block = block_of(alloc, &[&USUAL[3..], &SECOND[3..]])?;
    let cases: [(&[u8], &str); 2] = [(&blocks, "in its own block"), (&block, "in one block")];
    for (feed, what) in cases {
        expect(&rt, &replayed(alloc, Outside::of(feed))?, 0, &ALERT, what);
    }
    Ok(())
}

#[test]
fn records_of_several_shapes(rt: HostRuntime) -> Result<(), Fail> {
    let ran = replayed(rt.alloc(), Outside::of(&TRACKER))?;
    expect(&rt, &ran, 0, &TRACKER_ALERTS, "a tracker's feed");
    Ok(())
}
