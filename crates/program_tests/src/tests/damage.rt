//! Damaged feeds: what is refused or cut off is lost, and nothing else.

use super::feeds::{ALERT, FIRST, SECOND, THREE_ALERTS, block_of, half_refused, joined};
use super::outside::{Outside, expect, replayed};
use super::plots::{HEAD_ON, Plot};
use std::test::Fail;

/// A record that names a spare item is refused, and the rest of its block's body is lost.
#[test]
fn a_record_refused(rt: HostRuntime) -> Result<(), Fail> {
    let alloc = rt.alloc();
    let spare = HEAD_ON.with_spare_item(alloc)?;
    let behind = half_refused(alloc)?;
    let before = block_of(alloc, &[&spare, &FIRST[3..]])?;
    let cases: [(&[u8], &[u8], &str); 2] = [
        (&behind, &ALERT, "a record refused"),
        (&before, &[], "the rest of a body is lost"),
    ];
    for (block, out, what) in cases {
        let feed = joined(alloc, &[block, &SECOND])?;
        expect(&rt, &replayed(alloc, Outside::of(&feed))?, 7, out, what);
    }
    Ok(())
}

/// A feed in which a record is refused and a block is cut off. The track behind the refused one is lost.
#[test]
fn a_record_refused_and_a_block_cut_off(rt: HostRuntime) -> Result<(), Fail> {
    let alloc = rt.alloc();
    let numbered = |number| Plot {
        number: Some(number),
        ..HEAD_ON
    };
    let third = numbered(0x0103).record(alloc)?;
    let spare = numbered(0x0104).with_spare_item(alloc)?;
    let fifth = numbered(0x0105).record(alloc)?;
    let damaged = block_of(alloc, &[&third, &spare, &fifth])?;
    let feed = joined(alloc, &[&FIRST, &damaged, &SECOND, &FIRST[..10]])?;
    let ran = replayed(alloc, Outside::of(&feed))?;
    expect(&rt, &ran, 7, &THREE_ALERTS, "a damaged feed");
    Ok(())
}

/// What stands behind two tracks' blocks or before them, and the status: 0 where it is whole.
const OTHERS: [(&[u8], u8, &str); 5] = [
    (&[0x3e, 0x00, 0x02], 7, "a bad length"),
    (&[0x3e, 0x00, 0x03], 0, "a block without records"),
    (&[0x22, 0x00, 0x03], 0, "another category"),
    (&[0x3e, 0x00, 0x04], 7, "a block cut off"),
    (&[0x3e], 7, "a header cut off"),
];

#[test]
fn octets_behind_the_blocks(rt: HostRuntime) -> Result<(), Fail> {
    let alloc = rt.alloc();
    for (octets, status, what) in OTHERS {
        let feed = joined(alloc, &[&FIRST, &SECOND, octets])?;
        let ran = replayed(alloc, Outside::of(&feed))?;
        expect(&rt, &ran, status, &ALERT, what);
    }
    Ok(())
}

/// The feed is read in pieces of 3 octets.
#[test]
fn octets_before_the_blocks(rt: HostRuntime) -> Result<(), Fail> {
    let alloc = rt.alloc();
    for (octets, status, what) in OTHERS {
        let feed = joined(alloc, &[octets, &FIRST, &SECOND])?;
        let outside = Outside {
            cuts: &[3; 20],
            ..Outside::of(&feed)
        };
        let out: &[u8] = if status == 0 { &ALERT } else { &[] };
        expect(&rt, &replayed(alloc, outside)?, status, out, what);
    }
    Ok(())
}

#[test]
fn a_block_cut_off(rt: HostRuntime) -> Result<(), Fail> {
    let alloc = rt.alloc();
    let cases: [(&[&[u8]], &str); 2] = [
        (&[&FIRST, &SECOND[..10]], "the second block cut off"),
        (&[&FIRST[..27]], "a block less one octet"),
    ];
    for (blocks, what) in cases {
        let feed = joined(alloc, blocks)?;
        expect(&rt, &replayed(alloc, Outside::of(&feed))?, 7, &[], what);
    }
    Ok(())
}
