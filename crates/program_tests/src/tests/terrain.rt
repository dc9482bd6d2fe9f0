//! A site that names a terrain file: when it is read, why it is refused, and an alert over it.

use super::feeds::FIRST;
use super::outside::{
    NAME, NO_FAULT, Outside, SITE, WORLD_FAULT, expect, expect_faults, expect_report, replayed,
    run_words,
};
use super::plots::{HEAD_ON, Plot};
use super::site::{SITE_A, changed};
use std::alloc::{AllocError, Global};
use std::test::Fail;

/// Two columns and two rows of cells of 1,000 m from (0, 0) on: 1,000 ft high in the south and 2,000 ft in the north.
const HILLS: [u8; 28] = [
    0x54, 0x45, 0x52, 0x31, 0x00, 0x00, 0x00, 0x00, 0x00, 0x00, 0x00, 0x00, 0x00, 0x00, 0x03, 0xe8,
    0x00, 0x02, 0x00, 0x02, 0x00, 0x28, 0x00, 0x28, 0x00, 0x50, 0x00, 0x50,
];

/// The site of the tests over the terrain under this name.
fn site_over(alloc: Global, name: &str) -> Result<String, AllocError> {
    let fields = format!(in alloc; "sac = 25\nterrain = \"{name}\"")?;
    changed(alloc, SITE_A, "sac = 25", &fields)
}

/// A terrain that isn't opened, for want of its name or by a fault, or of which a read fails: no feed is opened then.
#[test]
fn a_terrain_that_is_not_read(rt: HostRuntime) -> Result<(), Fail> {
    let alloc = rt.alloc();
    let none = site_over(alloc, "none.ter")?;
    let missing = Outside {
        site: none.as_bytes(),
        ..Outside::of(&FIRST)
    };
    let ran = replayed(alloc, missing)?;
    expect_faults(&rt, &ran, 4, &[], NO_FAULT, "a name that isn't there");
    expect_report(
        &rt,
        &ran,
        "cannot open none.ter\n",
        "a name that isn't there",
    );
    assert_eq!(rt; ran.opens, 2);
    let site = site_over(alloc, "t.ter")?;
    let whole = Outside {
        site: site.as_bytes(),
        terrain: &HILLS,
        terrain_cuts: &[10; 2],
        ..Outside::of(&FIRST)
    };
    let unopened = Outside {
        failing_opens: &[1],
        ..whole
    };
    let ran = replayed(alloc, unopened)?;
    expect_faults(&rt, &ran, 4, &[], WORLD_FAULT, "an open that fails");
    expect_report(&rt, &ran, "cannot open t.ter\n", "an open that fails");
    // Three reads give the terrain, and a fourth its end.
    for call in 0..4u64 {
        let unread = Outside {
            failing_terrain_reads: &[call],
            ..whole
        };
        let ran = replayed(alloc, unread)?;
        expect_faults(&rt, &ran, 4, &[], WORLD_FAULT, "a read that fails");
        expect_report(&rt, &ran, "read failed: t.ter\n", "a read that fails");
        // The site is read in two calls.
        assert_eq!(rt; (ran.opens, ran.reads), (2, call + 3));
    }
    Ok(())
}

/// The terrain with these octets in place of those from a place on.
fn written(alloc: Global, at: usize, octets: &[u8]) -> Result<Vec<u8>, AllocError> {
    let mut bytes = Vec::with_capacity(alloc, HILLS.len())?;
    for (place, byte) in HILLS.iter().enumerate() {
        let other = octets.get(place.wrapping_sub(at));
        bytes.push(*other.unwrap_or(byte))?;
    }
    Ok(bytes)
}

/// The terrain with so many columns and so many rows told.
fn counted(alloc: Global, columns: u16, rows: u16) -> Result<Vec<u8>, AllocError> {
    let [a, b] = columns.to_be_bytes();
    let [c, d] = rows.to_be_bytes();
    written(alloc, 16, &[a, b, c, d])
}

#[test]
fn terrains_that_are_refused(rt: HostRuntime) -> Result<(), Fail> {
    let alloc = rt.alloc();
    let site = site_over(alloc, "t.ter")?;
    let mut longer = HILLS.to_vec(alloc)?;
    longer.push(0)?;
    let cases = [
        (Vec::new(alloc), "terrain refused: 1\n"),
        (written(alloc, 3, b"2")?, "terrain refused: 1\n"),
        (
            HILLS[..19].to_vec(alloc)?,
            "terrain refused: 4 stated 20 found 19\n",
        ),
        (
            written(alloc, 12, &[0, 0, 0, 99])?,
            "terrain refused: 2 side 99\n",
        ),
        (
            written(alloc, 12, &[0, 1, 0x86, 0xa1])?,
            "terrain refused: 2 side 100001\n",
        ),
        (
            counted(alloc, 0, 2)?,
            "terrain refused: 3 columns 0 rows 2\n",
        ),
        (
            counted(alloc, 2, 2049)?,
            "terrain refused: 3 columns 2 rows 2049\n",
        ),
        (
            HILLS[..27].to_vec(alloc)?,
            "terrain refused: 4 stated 28 found 27\n",
        ),
        (longer, "terrain refused: 4 stated 28 found 29\n"),
    ];
    for (terrain, report) in cases {
        let outside = Outside {
            site: site.as_bytes(),
            terrain: &terrain,
            ..Outside::of(&FIRST)
        };
        let ran = replayed(alloc, outside)?;
        expect(&rt, &ran, 3, &[], report);
        expect_report(&rt, &ran, report, report);
        assert_eq!(rt; ran.opens, 2, "no feed is opened");
    }
    Ok(())
}

/// A terrain of 2,048 columns and 2,048 rows without a height, and so many octets behind it.
fn widest(alloc: Global, more: usize) -> Result<Vec<u8>, AllocError> {
    let mut bytes = counted(alloc, 2048, 2048)?;
    bytes.truncate(20);
    let heights = vec![in alloc; 0x80u8; 8_388_608usize.wrapping_add(more)]?;
    bytes.extend_from_slice(&heights)?;
    Ok(bytes)
}

/// The greatest terrain is taken, and of a longer one no more is read than tells that it is too long.
#[test]
fn terrains_of_the_greatest_length_and_longer_ones(rt: HostRuntime) -> Result<(), Fail> {
    let alloc = rt.alloc();
    let site = site_over(alloc, "t.ter")?;
    let refused = "terrain refused: 4 stated 8388628 found 8388629\n";
    for (more, status, reads) in [(0usize, 0u8, 517u64), (1, 3, 515), (30_000, 3, 515)] {
        let terrain = widest(alloc, more)?;
        let outside = Outside {
            site: site.as_bytes(),
            terrain: &terrain,
            ..Outside::of(&[])
        };
        let ran = replayed(alloc, outside)?;
        expect(&rt, &ran, status, &[], "a great terrain");
        if status == 3 {
            expect_report(&rt, &ran, refused, "a great terrain");
        }
        // 512 reads of 16,384 octets, and those of what is left, of the site and of the feed.
        assert_eq!(rt; ran.reads, reads);
    }
    Ok(())
}

/// The site comes before the terrain, and the terrain before the feeds: the first that fails is told.
#[test]
fn site_terrain_and_feeds_in_order(rt: HostRuntime) -> Result<(), Fail> {
    let alloc = rt.alloc();
    let refused = changed(
        alloc,
        SITE_A,
        "period = 4",
        "terrain = \"none.ter\"\nperiod = 0",
    )?;
    let none = site_over(alloc, "none.ter")?;
    let over = site_over(alloc, "t.ter")?;
    let short = &HILLS[..27];
    let cases: [(&str, &[u8], u8, u64, &str); 4] = [
        (
            &refused,
            short,
            3,
            1,
            "site refused: 4 field 5 entry 0 value 0\n",
        ),
        (&none, short, 4, 2, "cannot open none.ter\n"),
        (
            &over,
            short,
            3,
            2,
            "terrain refused: 4 stated 28 found 27\n",
        ),
        (&over, &HILLS, 4, 4, "cannot open none.ast\n"),
    ];
    for (site, terrain, status, opens, report) in cases {
        let outside = Outside {
            site: site.as_bytes(),
            terrain,
            ..Outside::of(&FIRST)
        };
        let words = ["replay", "--site", SITE, NAME, "none.ast"];
        let ran = run_words(alloc, outside, &words)?;
        expect(&rt, &ran, status, &[], report);
        expect_report(&rt, &ran, report, report);
        assert_eq!(rt; ran.opens, opens, "{report}");
    }
    Ok(())
}

/// A track that comes down over the northern row: at the cycle's end, 2 s after it was told, it is at (100 m, 1,000 m)
/// and 2,100 ft. 2,580,480 - 240 * t is below 2,457,600 from tick 513 on.
#[test]
fn a_track_too_low(rt: HostRuntime) -> Result<(), Fail> {
    let alloc = rt.alloc();
    let site = site_over(alloc, "t.ter")?;
    let low = Plot {
        place: Some((0, 2000)),
        speed: Some((200, 0)),
        level: Some(86),
        rate: Some(-240),
        ..HEAD_ON
    };
    let feed = low.block(alloc)?;
    let outside = Outside {
        site: site.as_bytes(),
        terrain: &HILLS,
        ..Outside::of(&feed)
    };
    let ran = replayed(alloc, outside)?;
    let warning = [
        0x04, 0x00, 0x1c, 0xdd, 0x91, 0x02, 0x19, 0x64, 0x04, 0x46, 0x52, 0x00, 0x00, 0x00, 0x02,
        0x01, 0x01, 0x80, 0x00, 0x02, 0x01, 0x07, 0x04, 0x19, 0x0a, 0x00, 0x00, 0x01,
    ];
    expect(&rt, &ran, 0, &warning, "too low");
    let report = "cycles 1
feed 0 blocks 1 passed 0 records 1 tracks 1 end clean
alerts 1
messages 1
";
    expect_report(&rt, &ran, report, "too low");
    assert_eq!(rt; ran.opens, 3);
    Ok(())
}
