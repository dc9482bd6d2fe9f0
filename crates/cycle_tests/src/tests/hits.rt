//! Rows and hits of cycles, each answer worked out by hand.
ghost use Rattle.std.specs.Prelude.{◌≡◌, ◌<◌, IfOk};
ghost use Rattle.site_types.specs.Ranges.{IsSite};
ghost use Rattle.terrain_file.specs.Ranges.{IsTerrain};
ghost use Rattle.cycle_workers.specs.Movers.{IsCycleTable};

use super::rows::{are_in_order, are_movable};
use super::sites::site_of;
use alert_states::{CURRENT_PROXIMITY, Hit, HitData, Net, Subject, URGENT};
use cycle_workers::{Hits, Mover, NoMemory, eligible, hits_one};
use outside_io::Steps;
use site_types::Site;
use std::alloc::{AllocError, Global};
use std::marker::Brand;
use std::process::Abort;
use std::sync::ledger::{Blank, Ledger};
use std::test::Fail;
use terrain_file::Terrain;
use track_motion::{Motion, Stamped, Track, TrackKey};
use track_table::{Frozen, Rows};

mod airspace;
mod ground;

/// 9,260 m and 800 or 1,000 ft ahead, 4,630 m and 500 or 600 ft now; tracks of code 7000 are left out.
const SITE_A: &str = "sac = 25
sic = 100
start = 36000
period = 4
timeout = 16
codes = [0o7000]

[confirm]
stca = [2, 3, 2]
msaw = [2, 3, 2]
apw = [1, 1, 1]
apm = [2, 3, 2]

[[set]]
name = \"base\"
stca = true
msaw = true
apw = false
apm = true
look_stca = 120
look_msaw = 60
look_apw = 60
look_apm = 60
h = 9260
v_low = 800
v_high = 1000
split = 29000
now_h = 4630
now_v_low = 500
now_v_high = 600
urgent = 20
";

/// When the tables are taken.
const TIME: i64 = 4_608_512;

/// At rest at 33,000 ft.
const REST: Track = Track {
    key: TrackKey {
        sac: 25,
        sic: 10,
        number: 1,
    },
    time: 4_608_512,
    x: 0,
    y: 0,
    vx: 0,
    vy: 0,
    level: Some(1320),
    altitude: Some(1320),
    rate: 0,
    code: None,
    tentative: false,
    simulated: false,
    ended: false,
};

/// The same of another number.
const OTHER: Track = Track {
    key: TrackKey {
        sac: 25,
        sic: 10,
        number: 2,
    },
    ..REST
};

/// Told one second before the tables are taken.
fn row(track: Track) -> Stamped {
    Stamped {
        track,
        feed: 0,
        place: 0,
        at: TIME - 128,
        window: 0,
    }
}

/// The table of these tracks.
fn table_of(rt: &impl Abort, alloc: Global, tracks: &[Track]) -> Result<Frozen, NoMemory>
    ensures { IfOk result (λ frozen. IsCycleTable frozen) }
{
    let mut rows = Vec::new(alloc);
    for track in tracks {
        rows.push(row(*track))?;
    }
    assert!(rt; are_in_order(&rows));
    assert!(rt; are_movable(&rows, TIME));
    Ok(Frozen {
        cycle: 0,
        time: TIME,
        rows: Rows::new(rows),
    })
}

/// The hits, with a counter that ends at the number of pairs that were examined.
fn found(alloc: Global, frozen: &Frozen, site: &Site) -> Result<Hits, NoMemory>
    requires table { IsCycleTable frozen.now }
    requires site { IsSite site.now }
{
    found_over(alloc, frozen, site, &Terrain::none(alloc))
}

/// The same over a terrain.
fn found_over(
    alloc: Global,
    frozen: &Frozen,
    site: &Site,
    terrain: &Terrain,
) -> Result<Hits, NoMemory>
    requires table { IsCycleTable frozen.now }
    requires site { IsSite site.now }
    requires terrain { IsTerrain terrain.now }
{
    counted::<Brand>(Blank::new(1), alloc, frozen, site, terrain)
}

fn counted<L: Ledger>(
    blank: Blank,
    alloc: Global,
    frozen: &Frozen,
    site: &Site,
    terrain: &Terrain,
) -> Result<Hits, NoMemory>
    requires name { blank.name ≡ L.name }
    requires parts { blank.parts ≡ L.parts }
    requires some { 0 < blank.parts }
    requires table { IsCycleTable frozen.now }
    requires site { IsSite site.now }
    requires terrain { IsTerrain terrain.now }
{
    let mut steps = Steps::<L>::new(blank);
    let found = hits_one(alloc, frozen, site, terrain, &mut steps)?;
    end_at(steps, found.examined);
    Ok(found)
}

fn end_at<L: Ledger>(_steps: Steps<L>, _examined: u64)
    requires { _steps ≡ _examined }
{}

/// The tracks have these hits, and so many pairs are examined for them.
fn expect_hits(
    rt: &impl Abort,
    alloc: Global,
    tracks: &[Track],
    hits: &[Hit],
    examined: u64,
) -> Result<(), NoMemory> {
    let site = site_of(rt, alloc, SITE_A)?;
    expect_hits_in(rt, alloc, &site, tracks, hits, examined)
}

/// The same at a site.
fn expect_hits_in(
    rt: &impl Abort,
    alloc: Global,
    site: &Site,
    tracks: &[Track],
    hits: &[Hit],
    examined: u64,
) -> Result<(), NoMemory>
    requires { IsSite site.now }
{
    let frozen = table_of(rt, alloc, tracks)?;
    let found = found(alloc, &frozen, site)?;
    assert_eq!(rt; found.hits.as_slice(), hits);
    assert_eq!(rt; found.examined, examined);
    Ok(())
}

/// A hit of the two tracks at rest, so many half-metres apart.
fn hit_at_rest(apart: u16) -> Hit {
    Hit {
        subject: Subject {
            net: Net::Stca,
            key: REST.key,
            other: OTHER.key,
            object: 0,
        },
        urgent: true,
        figures: HitData {
            first: 0,
            closest: 0,
            chs: u32::from(apart),
            mhs: apart,
            cvs: 0,
            mvs: 0,
            flags: URGENT,
        },
    }
}

/// 2 * 6547^2 = 85,726,418 is below 9260^2 = 85,747,600, and 2 * 6548^2 = 85,752,608 isn't. The root of
/// 85,726,418 is 9,258.85.
#[test]
fn at_the_limit_along_both_axes(rt: HostRuntime) -> Result<(), Fail> {
    let near = Track {
        x: 13_094,
        y: 13_094,
        ..OTHER
    };
    let far = Track {
        x: 13_096,
        y: 13_096,
        ..OTHER
    };
    expect_hits(&rt, rt.alloc(), &[REST, near], &[hit_at_rest(18_517)], 1)?;
    expect_hits(&rt, rt.alloc(), &[REST, far], &[], 1)?;
    Ok(())
}

/// 100 half-metres apart and not drawing apart: in current proximity.
#[test]
fn in_current_proximity(rt: HostRuntime) -> Result<(), Fail> {
    let near = Track { x: 100, ..OTHER };
    let hit = hit_at_rest(100);
    let now = Hit {
        figures: HitData {
            flags: URGENT + CURRENT_PROXIMITY,
            ..hit.figures
        },
        ..hit
    };
    expect_hits(&rt, rt.alloc(), &[REST, near], &[now], 1)?;
    Ok(())
}

/// Rows that the nets don't look at, or that have no level: no pair is examined.
#[test]
fn rows_that_are_not_eligible(rt: HostRuntime) -> Result<(), Fail> {
    let others = [
        Track {
            tentative: true,
            ..OTHER
        },
        Track {
            simulated: true,
            ..OTHER
        },
        Track {
            code: Some(0o7000),
            ..OTHER
        },
        Track {
            level: None,
            altitude: None,
            ..OTHER
        },
    ];
    for other in others {
        expect_hits(&rt, rt.alloc(), &[REST, other], &[], 0)?;
    }
    Ok(())
}

/// A row's mover is where the row is one second after it was told. A net that no set enables has none.
#[test]
fn movers_of_a_net(rt: HostRuntime) -> Result<(), Fail> {
    let alloc = rt.alloc();
    let site = site_of(&rt, alloc, SITE_A)?;
    let track = Track {
        x: -10,
        vx: 40,
        rate: -3,
        code: Some(0o7001),
        ..REST
    };
    let frozen = table_of(&rt, alloc, &[track])?;
    let mover = Mover {
        key: REST.key,
        motion: Motion {
            x: 2_560,
            y: 0,
            vx: 40,
            vy: 0,
            z: 40_550_016,
            alt: 40_550_016,
            vz: -3,
        },
        set: 0,
    };
    for net in [Net::Stca, Net::Msaw, Net::Apm] {
        let movers = eligible(alloc, &frozen, &site, net)?;
        assert_eq!(rt; movers.as_slice(), [mover].as_slice());
    }
    assert_eq!(rt; eligible(alloc, &frozen, &site, Net::Apw)?.len(), 0);
    Ok(())
}

/// Nine rows, 50 m from one to the next, flying east and west in turn.
fn nine() -> [Track; 9] {
    let mut tracks = [REST; 9];
    for i in 0..9 {
        tracks[i].key.number = i as u16;
        tracks[i].x = 100 * i as i32;
        tracks[i].vx = if i % 2 == 0 { 1_000 } else { -1_000 };
    }
    tracks
}

/// Each of nine rows with each later one, in order.
#[test]
fn nine_rows_head_on(rt: HostRuntime) -> Result<(), Fail> {
    let alloc = rt.alloc();
    let site = site_of(&rt, alloc, SITE_A)?;
    let frozen = table_of(&rt, alloc, &nine())?;
    let found = found(alloc, &frozen, &site)?;
    assert_eq!(rt; found.examined, 36);
    let mut hits = found.hits.iter();
    for first in 0..9u16 {
        for second in first + 1..9 {
            let subject = hits
                .next()
                .map(|hit| (hit.subject.key.number, hit.subject.other.number));
            assert_eq!(rt; subject, Some((first, second)));
        }
    }
    assert!(rt; hits.next().is_none());
    Ok(())
}

/// The hits, taken once more where memory was refused.
fn found_again(alloc: Global, frozen: &Frozen, site: &Site) -> Result<Hits, NoMemory>
    requires table { IsCycleTable frozen.now }
    requires site { IsSite site.now }
{
    match found(alloc, frozen, site) {
        Ok(hits) => Ok(hits),
        Err(_) => found(alloc, frozen, site),
    }
}

/// Where memory was refused, the same call answers as ever. Where the site or the table is refused, there is no call.
#[test]
fn want_of_memory(rt: HostRuntime) -> Result<(), Fail> {
    let alloc = rt.alloc();
    let Ok(site) = site_of(&rt, alloc, SITE_A) else {
        return Ok(());
    };
    let Ok(frozen) = table_of(&rt, alloc, &nine()) else {
        return Ok(());
    };
    let again = found_again(alloc, &frozen, &site)?;
    assert_eq!(rt; again.hits.len(), 36);
    assert_eq!(rt; again.examined, 36);
    Ok(())
}
