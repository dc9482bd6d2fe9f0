//! Rows over a terrain, and on an approach.
ghost use Rattle.std.specs.Prelude.{IfOk};
ghost use Rattle.site_types.specs.Ranges.{IsSite};
ghost use Rattle.terrain_file.specs.Ranges.{IsTerrain};

use super::{NoMemory, OTHER, REST, SITE_A, found_over, site_of, table_of};
use alert_states::{BELOW, Hit, HitData, Net, Subject, URGENT};
use site_params::{TerrainFault, read_terrain};
use site_types::Site;
use std::alloc::{AllocError, Global};
use std::process::Abort;
use std::test::Fail;
use terrain_file::Terrain;
use track_motion::{Track, TrackKey};

/// Two columns and two rows of cells of 1,000 m from (0, 0) on: 1,000 ft high in the south and 2,000 ft in the north.
const HILLS: [u8; 28] = [
    0x54, 0x45, 0x52, 0x31, 0x00, 0x00, 0x00, 0x00, 0x00, 0x00, 0x00, 0x00, 0x00, 0x00, 0x03, 0xe8,
    0x00, 0x02, 0x00, 0x02, 0x00, 0x28, 0x00, 0x28, 0x00, 0x50, 0x00, 0x50,
];

/// Towards the east, towards the west, and towards the east again: within 200 m of the centre line and 500 m more
/// each 10,000 m, and from 1,200 ft each 10,000 m to 500 ft above 3,000 ft each 10,000 m.
const FUNNELS: &str = "
[[funnel]]
name = \"east\"
x = 0
y = 0
dx = 1
dy = 0
elevation = 0
reach = 20000
ceiling = 5000
capture_half = 1000
capture_side = 1000
half = 200
side = 500
low_base = 0
low_rise = 1200
high_base = 500
high_rise = 3000

[[funnel]]
name = \"west\"
x = 0
y = 0
dx = -1
dy = 0
elevation = 0
reach = 20000
ceiling = 5000
capture_half = 1000
capture_side = 1000
half = 200
side = 500
low_base = 0
low_rise = 1200
high_base = 500
high_rise = 3000

[[funnel]]
name = \"again\"
x = 0
y = 0
dx = 1
dy = 0
elevation = 0
reach = 20000
ceiling = 5000
capture_half = 1000
capture_side = 1000
half = 200
side = 500
low_base = 0
low_rise = 1200
high_base = 500
high_rise = 3000
";

/// At 50 m/s along the southern border of the northern cells, 100 m from the western one when the tables are taken, and
/// sinking from 2,100 ft. Its level is 5,000 ft.
const SINKING: Track = Track {
    x: 100,
    y: 2_000,
    vx: 200,
    level: Some(200),
    altitude: Some(85),
    rate: -240,
    ..REST
};

/// At 70 m/s to the east, 10,000 m before the threshold when the tables are taken, and sinking from 1,725 ft.
const LANDING: Track = Track {
    x: -20_140,
    vx: 280,
    level: Some(70),
    altitude: Some(70),
    rate: -240,
    ..OTHER
};

/// The terrain of these bytes, but for want of memory.
fn terrain_of(rt: &impl Abort, alloc: Global, bytes: &[u8]) -> Result<Terrain, NoMemory>
    ensures { IfOk result (λ terrain. IsTerrain terrain) }
{
    match read_terrain(alloc, bytes) {
        Ok(terrain) => Ok(terrain),
        Err(fault) => {
            assert_eq!(rt; fault, TerrainFault::NoMemory);
            Err(AllocError)
        }
    }
}

fn site_with_funnels(rt: &impl Abort, alloc: Global) -> Result<Site, NoMemory>
    ensures { IfOk result (λ site. IsSite site) }
{
    let mut text = String::new(alloc);
    text.push_str(SITE_A)?;
    text.push_str(FUNNELS)?;
    site_of(rt, alloc, &text)
}

fn hit(net: Net, key: TrackKey, object: u16, first: u32, flags: u8) -> Hit {
    Hit {
        subject: Subject {
            net,
            key,
            other: TrackKey {
                sac: 0,
                sic: 0,
                number: 0,
            },
            object,
        },
        urgent: first < 2_560,
        figures: HitData {
            first,
            closest: 0,
            chs: 0,
            mhs: 0,
            cvs: 0,
            mvs: 0,
            flags,
        },
    }
}

/// The tracks have these hits over the hills and at the funnels.
fn expect_hits(
    rt: &impl Abort,
    alloc: Global,
    tracks: &[Track],
    hits: &[Hit],
) -> Result<(), NoMemory> {
    let site = site_with_funnels(rt, alloc)?;
    let terrain = terrain_of(rt, alloc, &HILLS)?;
    let frozen = table_of(rt, alloc, tracks)?;
    let found = found_over(alloc, &frozen, &site, &terrain)?;
    assert_eq!(rt; found.hits.as_slice(), hits);
    Ok(())
}

/// 2,580,480 - 240 * t is below 2,457,600 first at 513, which is within 20 s. The other is below its path where
/// 5,250,000 < 1,296.875 * t, first at 4,049, and is told so for each of the two funnels that face its way.
#[test]
fn below_the_hills_and_below_the_path(rt: HostRuntime) -> Result<(), Fail> {
    let hits = [
        hit(Net::Msaw, SINKING.key, 0, 513, URGENT),
        hit(Net::Apm, LANDING.key, 0, 4_049, BELOW),
        hit(Net::Apm, LANDING.key, 2, 4_049, BELOW),
    ];
    expect_hits(&rt, rt.alloc(), &[SINKING, LANDING], &hits)?;
    Ok(())
}

/// A track that flies away from the threshold isn't captured, and one at rest a metre west of the hills isn't over them.
#[test]
fn on_neither_approach_nor_hills(rt: HostRuntime) -> Result<(), Fail> {
    let leaving = Track {
        vx: -280,
        x: -19_860,
        ..LANDING
    };
    let beside = Track {
        x: -2,
        altitude: Some(-40),
        ..REST
    };
    expect_hits(&rt, rt.alloc(), &[beside, leaving], &[])?;
    Ok(())
}
