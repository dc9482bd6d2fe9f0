//! Feeds that are read and written in pieces, and feeds that are cut off.

use super::feeds::{ALERT, ENDS, FIRST, SECOND, every_form, joined};
use super::outside::{Outside, expect, replayed};
use std::test::Fail;

/// Pieces of each size, up to one that is longer than the feed.
#[test]
fn reads_in_pieces(rt: HostRuntime) -> Result<(), Fail> {
    let alloc = rt.alloc();
    let feed = joined(alloc, &[&FIRST, &SECOND])?;
    for size in 1..58u32 {
        let cuts = vec![in alloc; size; 57]?;
        let outside = Outside {
            cuts: &cuts,
            ..Outside::of(&feed)
        };
        let ran = replayed(alloc, outside)?;
        expect(&rt, &ran, 0, &ALERT, "reads in pieces");
    }
    Ok(())
}

/// Pieces of each size, up to one that is longer than the output.
#[test]
fn writes_in_pieces(rt: HostRuntime) -> Result<(), Fail> {
    let alloc = rt.alloc();
    let feed = joined(alloc, &[&FIRST, &SECOND])?;
    for size in 1..44u32 {
        let takes = vec![in alloc; size; 43]?;
        let outside = Outside {
            takes: &takes,
            ..Outside::of(&feed)
        };
        let ran = replayed(alloc, outside)?;
        expect(&rt, &ran, 0, &ALERT, "writes in pieces");
    }
    Ok(())
}

#[test]
fn every_form_in_two_pieces(rt: HostRuntime) -> Result<(), Fail> {
    let alloc = rt.alloc();
    let feed = every_form(alloc)?;
    assert_eq!(rt; feed.len(), 287);
    for place in 0..288u32 {
        let outside = Outside {
            cuts: &[place],
            ..Outside::of(&feed)
        };
        let ran = replayed(alloc, outside)?;
        expect(&rt, &ran, 0, &ALERT, "in two pieces");
    }
    Ok(())
}

/// The alert is there once the second track's block is whole, and the status is 0 where a block ends.
#[test]
fn every_form_cut_off(rt: HostRuntime) -> Result<(), Fail> {
    let alloc = rt.alloc();
    let feed = every_form(alloc)?;
    for place in 0..288usize {
        let ran = replayed(alloc, Outside::of(&feed[..place.min(feed.len())]))?;
        let is_whole = place == 0 || ENDS.contains(&place);
        let out: &[u8] = if place < 165 { &[] } else { &ALERT };
        expect(&rt, &ran, if is_whole { 0 } else { 7 }, out, "cut off");
    }
    Ok(())
}
