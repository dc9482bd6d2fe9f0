//! An approach funnel of a site, from its text to the alerts.

use super::outside::{Outside, expect, expect_report, replayed};
use super::plots::{HEAD_ON, Plot};
use super::site::{changed, site_with};
use std::test::Fail;

/// A funnel at the origin for landings to the east. Behind the threshold the approach path rises from 0 ft by 1,200 ft in
/// 10 km, and a hit is enough for an alert.
const FUNNEL: &str = "
[[funnel]]
name = \"eastbound\"
x = 0
y = 0
dx = 1
dy = 0
elevation = 0
reach = 20000
ceiling = 5000
capture_half = 1000
capture_side = 1000
half = 200
side = 500
low_base = 0
low_rise = 1200
high_base = 500
high_rise = 3000
";

/// At 36,004 s, 10,000 m before the threshold, 1,725 ft high and sinking: 12,500 * (10,598,400 - 1,200 * t) is less than
/// 3,600 * (5,120,000 - 280 * t) from tick 4,049 on (`00 0f d1`), which isn't urgent. It is below the path, and else nothing.
const BELOW: [u8; 28] = [
    0x04, 0x00, 0x1c, 0xdd, 0x91, 0x02, 0x19, 0x64, 0x08, 0x46, 0x52, 0x00, 0x00, 0x00, 0x02, 0x01,
    0x01, 0x80, 0x00, 0x0f, 0xd1, 0x07, 0x08, 0x19, 0x0a, 0x00, 0x00, 0x04,
];

/// The report of one track with an alert.
const ONE_ALERT: &str = "cycles 1
feed 0 blocks 1 passed 0 records 1 tracks 1 end clean
alerts 1
messages 1
";

/// The report of one track without one.
const NO_ALERT: &str = "cycles 1
feed 0 blocks 1 passed 0 records 1 tracks 1 end clean
alerts 0
messages 0
";

/// A track that sinks below the approach path, and one at the same place that moves against the landing direction, which
/// isn't captured. Both are told two seconds before, 140 m from there.
#[test]
fn a_track_below_the_approach_path(rt: HostRuntime) -> Result<(), Fail> {
    let alloc = rt.alloc();
    let site = site_with(alloc, FUNNEL)?;
    let site = changed(alloc, &site, "apm = [2, 3, 2]", "apm = [1, 3, 2]")?;
    let cases: [(i32, i16, &[u8], &str); 2] = [
        (-20_280, 280, &BELOW, ONE_ALERT),
        (-19_720, -280, &[], NO_ALERT),
    ];
    for (x, speed, out, report) in cases {
        let plot = Plot {
            place: Some((x, 0)),
            speed: Some((speed, 0)),
            level: Some(71),
            rate: Some(-240),
            ..HEAD_ON
        };
        let feed = plot.block(alloc)?;
        let outside = Outside {
            site: site.as_bytes(),
            ..Outside::of(&feed)
        };
        let ran = replayed(alloc, outside)?;
        expect(&rt, &ran, 0, out, report);
        expect_report(&rt, &ran, report, report);
    }
    Ok(())
}

/// A landing direction of no length.
#[test]
fn a_funnel_without_a_direction(rt: HostRuntime) -> Result<(), Fail> {
    let alloc = rt.alloc();
    let site = site_with(alloc, FUNNEL)?;
    let site = changed(alloc, &site, "dx = 1", "dx = 0")?;
    let outside = Outside {
        site: site.as_bytes(),
        ..Outside::of(&[])
    };
    let ran = replayed(alloc, outside)?;
    let report = "site refused: 4 field 50 entry 0 value 0\n";
    expect(&rt, &ran, 3, &[], report);
    expect_report(&rt, &ran, report, report);
    Ok(())
}
