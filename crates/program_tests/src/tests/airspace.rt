//! Regions and airspace volumes of a site, from its text to the alerts.

use super::feeds::{ALERT, FIRST, SECOND, joined};
use super::outside::{NO_FAULT, Outside, expect, expect_faults, expect_report, replayed};
use super::site::{changed, site_with};
use std::test::Fail;

/// A volume over the place of the first track at the cycle's end, 500 m east of the corner at (0, 0).
const VOLUME: &str = "
[[volume]]
name = \"square\"
floor = 0
ceiling = 100000
points = [[0, 0], [1000, 0], [1000, 1000], [0, 1000]]
";

/// The first track inside it from the first tick on: a block of one message, at 36,004 s.
const INSIDE: [u8; 28] = [
    0x04, 0x00, 0x1c, 0xdd, 0x91, 0x02, 0x19, 0x64, 0x05, 0x46, 0x52, 0x00, 0x00, 0x00, 0x02, 0x01,
    0x01, 0x80, 0x00, 0x00, 0x00, 0x07, 0x05, 0x19, 0x0a, 0x00, 0x00, 0x01,
];

/// The alert of two tracks, and behind it in the same block that of the first inside the volume and that of the second,
/// which comes in over the right border: 2,304,000 - 1,000 * t is below 512,000 from tick 1,793 on.
const BOTH: [u8; 92] = [
    0x04, 0x00, 0x5c, 0xdd, 0x91, 0x42, 0x19, 0x64, 0x07, 0x46, 0x52, 0x00, 0x00, 0x00, 0x02, 0x01,
    0x01, 0xfc, 0x00, 0x00, 0x00, 0x00, 0x04, 0x00, 0x00, 0x1f, 0x40, 0x00, 0x00, 0x00, 0x08, 0x00,
    0x08, 0x01, 0x02, 0x07, 0x07, 0x19, 0x0a, 0x19, 0x0a, 0x03, 0xdd, 0x91, 0x02, 0x19, 0x64, 0x05,
    0x46, 0x52, 0x00, 0x00, 0x01, 0x02, 0x01, 0x01, 0x80, 0x00, 0x00, 0x00, 0x07, 0x05, 0x19, 0x0a,
    0x00, 0x00, 0x01, 0xdd, 0x91, 0x02, 0x19, 0x64, 0x05, 0x46, 0x52, 0x00, 0x00, 0x02, 0x02, 0x01,
    0x02, 0x80, 0x00, 0x07, 0x01, 0x07, 0x05, 0x19, 0x0a, 0x00, 0x00, 0x01,
];

/// A second set, in which no net is enabled, and a region of it round the place of the second track.
const QUIET_REGION: &str = "
[[set]]
name = \"quiet\"
stca = false
msaw = false
apw = false
apm = false
look_stca = 0
look_msaw = 0
look_apw = 0
look_apm = 0
h = 1
v_low = 25
v_high = 25
split = 0
now_h = 1
now_v_low = 25
now_v_high = 25
urgent = 0

[[region]]
name = \"east\"
set = \"quiet\"
floor = 33000
ceiling = 34000
points = [[4000, -1000], [5000, -1000], [5000, 1000], [4000, 1000]]
";

/// A track inside a volume, alone and beside a track that it meets; and a volume whose floor is above it.
#[test]
fn a_track_inside_a_volume(rt: HostRuntime) -> Result<(), Fail> {
    let alloc = rt.alloc();
    let site = site_with(alloc, VOLUME)?;
    let outside = Outside {
        site: site.as_bytes(),
        ..Outside::of(&FIRST)
    };
    let ran = replayed(alloc, outside)?;
    expect(&rt, &ran, 0, &INSIDE, "inside");
    let report = "cycles 1
feed 0 blocks 1 passed 0 records 1 tracks 1 end clean
alerts 1
messages 1
";
    expect_report(&rt, &ran, report, "inside");
    let feed = joined(alloc, &[&FIRST, &SECOND])?;
    let outside = Outside {
        site: site.as_bytes(),
        ..Outside::of(&feed)
    };
    expect(&rt, &replayed(alloc, outside)?, 0, &BOTH, "two nets");
    let above = changed(alloc, &site, "floor = 0", "floor = 33025")?;
    let outside = Outside {
        site: above.as_bytes(),
        ..Outside::of(&FIRST)
    };
    expect(&rt, &replayed(alloc, outside)?, 0, &[], "below the floor");
    Ok(())
}

/// A region whose set enables no net takes the second track, at (4,500 m, 0), out of the pairs, but not where the
/// region's floor is above it.
#[test]
fn a_region_without_warnings(rt: HostRuntime) -> Result<(), Fail> {
    let alloc = rt.alloc();
    let feed = joined(alloc, &[&FIRST, &SECOND])?;
    let site = site_with(alloc, QUIET_REGION)?;
    let outside = Outside {
        site: site.as_bytes(),
        ..Outside::of(&feed)
    };
    expect(&rt, &replayed(alloc, outside)?, 0, &[], "in the region");
    let above = changed(alloc, &site, "floor = 33000", "floor = 33225")?;
    let outside = Outside {
        site: above.as_bytes(),
        ..Outside::of(&feed)
    };
    expect(
        &rt,
        &replayed(alloc, outside)?,
        0,
        &ALERT,
        "below the region",
    );
    Ok(())
}

/// A floor that is no multiple of 25 ft, a region of a set that isn't there, and a second volume of one name.
#[test]
fn sites_whose_airspace_is_refused(rt: HostRuntime) -> Result<(), Fail> {
    let alloc = rt.alloc();
    let site = site_with(alloc, VOLUME)?;
    let mut twice = site_with(alloc, VOLUME)?;
    twice.push_str(VOLUME)?;
    let region = site_with(alloc, QUIET_REGION)?;
    let cases = [
        (
            changed(alloc, &site, "floor = 0", "floor = 10")?,
            "site refused: 4 field 41 entry 0 value 10\n",
        ),
        (
            changed(alloc, &region, "set = \"quiet\"", "set = \"none\"")?,
            "site refused: 6 field 35 entry 0\n",
        ),
        (twice, "site refused: 5 field 40 entry 1 first 0\n"),
    ];
    for (site, report) in cases {
        let outside = Outside {
            site: site.as_bytes(),
            ..Outside::of(&FIRST)
        };
        let ran = replayed(alloc, outside)?;
        expect_faults(&rt, &ran, 3, &[], NO_FAULT, report);
        expect_report(&rt, &ran, report, report);
    }
    Ok(())
}
