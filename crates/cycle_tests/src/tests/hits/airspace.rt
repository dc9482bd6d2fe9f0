//! Rows in regions, and rows that volumes hit.
ghost use Rattle.std.specs.Prelude.{IfOk};
ghost use Rattle.site_types.specs.Ranges.{IsSite};

use super::*;

/// Sets with 500 m and with 20,000 m ahead, each with APW. Regions one and two overlap from 500 m to 1,000 m and
/// from 33,000 ft to 33,500 ft. Of three volumes with one polygon the second is never active.
const AIRSPACE: &str = "
[[set]]
name = \"near\"
stca = true
msaw = true
apw = true
apm = true
look_stca = 120
look_msaw = 60
look_apw = 60
look_apm = 60
h = 500
v_low = 800
v_high = 1000
split = 29000
now_h = 400
now_v_low = 500
now_v_high = 600
urgent = 20

[[set]]
name = \"far\"
stca = true
msaw = true
apw = true
apm = true
look_stca = 120
look_msaw = 60
look_apw = 60
look_apm = 60
h = 20000
v_low = 800
v_high = 1000
split = 29000
now_h = 400
now_v_low = 500
now_v_high = 600
urgent = 20

[[region]]
name = \"one\"
set = \"near\"
floor = 33000
ceiling = 34000
points = [[0, 0], [1000, 0], [1000, 1000], [0, 1000]]

[[region]]
name = \"two\"
set = \"far\"
floor = 32000
ceiling = 33500
points = [[500, 0], [1500, 0], [1500, 1000], [500, 1000]]

[[region]]
name = \"low\"
set = \"near\"
floor = 0
ceiling = 17000
points = [[-20000, -20000], [20000, -20000], [20000, 20000], [-20000, 20000]]

[[volume]]
name = \"square\"
floor = 10000
ceiling = 20000
points = [[0, 0], [1000, 0], [1000, 1000], [0, 1000]]

[[volume]]
name = \"closed\"
floor = 10000
ceiling = 20000
points = [[0, 0], [1000, 0], [1000, 1000], [0, 1000]]
active = []

[[volume]]
name = \"same\"
floor = 10000
ceiling = 20000
points = [[0, 0], [1000, 0], [1000, 1000], [0, 1000]]
";

/// At 250 m/s and 15,000 ft towards the volumes, 1,000 m from them when the tables are taken.
const ENTERING: Track = Track {
    x: -2_500,
    y: 1_000,
    vx: 1_000,
    level: Some(600),
    altitude: Some(600),
    ..REST
};

fn site_b(rt: &impl Abort, alloc: Global) -> Result<Site, NoMemory>
    ensures { IfOk result (λ site. IsSite site) }
{
    let mut text = String::new(alloc);
    text.push_str(SITE_A)?;
    text.push_str(AIRSPACE)?;
    site_of(rt, alloc, &text)
}

/// At rest at so many half-metres and so many times 25 ft.
fn at(track: Track, x: i32, level: i32) -> Track {
    Track {
        x,
        y: 1_000,
        level: Some(level),
        altitude: Some(level),
        ..track
    }
}

#[test]
fn set_of_the_first_region(rt: HostRuntime) -> Result<(), Fail> {
    let alloc = rt.alloc();
    let site = site_b(&rt, alloc)?;
    let rows: [(i32, i32, u32); 13] = [
        // In both.
        (1_200, 1_320, 1),
        (1_200, 1_340, 1),
        // Over and under one of them.
        (1_200, 1_319, 2),
        (1_200, 1_341, 1),
        (1_200, 1_360, 1),
        (1_200, 1_361, 0),
        // Beside one of them.
        (600, 1_320, 1),
        (600, 1_319, 0),
        (2_400, 1_280, 2),
        (2_400, 1_279, 0),
        (2_400, 1_340, 2),
        (2_400, 1_341, 0),
        // Beside both.
        (4_000, 1_320, 0),
    ];
    for (x, level, set) in &rows {
        let frozen = table_of(&rt, alloc, &[at(REST, *x, *level)])?;
        let movers = eligible(alloc, &frozen, &site, Net::Msaw)?;
        let sets = movers.first().map(|mover| mover.set);
        assert_eq!(rt; sets, Some(*set), "at {x} and {level}");
    }
    Ok(())
}

/// 600 m apart, first with the lower-numbered set of one of them, and then with the set of both.
#[test]
fn lower_set_of_the_two(rt: HostRuntime) -> Result<(), Fail> {
    let alloc = rt.alloc();
    let site = site_b(&rt, alloc)?;
    let two = [at(REST, 1_200, 1_320), at(OTHER, 2_400, 1_320)];
    expect_hits_in(&rt, alloc, &site, &two, &[], 1)?;
    let two = [at(REST, 1_200, 1_319), at(OTHER, 2_400, 1_319)];
    expect_hits_in(&rt, alloc, &site, &two, &[hit_at_rest(1_200)], 1)?;
    Ok(())
}

/// Sets with 5,556 m and with 3,704 m ahead in place of 9,260 m, each in a region of its own.
const NARROWER: &str = "
[[set]]
name = \"three miles\"
stca = true
msaw = true
apw = true
apm = true
look_stca = 120
look_msaw = 60
look_apw = 60
look_apm = 60
h = 5556
v_low = 800
v_high = 1000
split = 29000
now_h = 4630
now_v_low = 500
now_v_high = 600
urgent = 20

[[set]]
name = \"two miles\"
stca = true
msaw = true
apw = true
apm = true
look_stca = 120
look_msaw = 60
look_apw = 60
look_apm = 60
h = 3704
v_low = 800
v_high = 1000
split = 29000
now_h = 4630
now_v_low = 500
now_v_high = 600
urgent = 20

[[region]]
name = \"west\"
set = \"three miles\"
floor = 0
ceiling = 40000
points = [[-1000, -1000], [1000, -1000], [1000, 1000], [-1000, 1000]]

[[region]]
name = \"east\"
set = \"two miles\"
floor = 0
ceiling = 40000
points = [[8000, -1000], [10000, -1000], [10000, 1000], [8000, 1000]]
";

/// 9,000 m apart: within the limit of the first set, which has no say where the two are.
#[test]
fn limits_of_the_regions_alone(rt: HostRuntime) -> Result<(), Fail> {
    let alloc = rt.alloc();
    let two = [REST, Track { x: 18_000, ..OTHER }];
    expect_hits(&rt, alloc, &two, &[hit_at_rest(18_000)], 1)?;
    let mut text = String::new(alloc);
    text.push_str(SITE_A)?;
    text.push_str(NARROWER)?;
    let site = site_of(&rt, alloc, &text)?;
    expect_hits_in(&rt, alloc, &site, &two, &[], 1)?;
    Ok(())
}

/// A hit of the first track by the volume of this number.
fn hit_by(object: u16, first: u32, urgent: bool) -> Hit {
    Hit {
        subject: Subject {
            net: Net::Apw,
            key: REST.key,
            other: TrackKey {
                sac: 0,
                sic: 0,
                number: 0,
            },
            object,
        },
        urgent,
        figures: HitData {
            first,
            closest: 0,
            chs: 0,
            mhs: 0,
            cvs: 0,
            mvs: 0,
            flags: if urgent { URGENT } else { 0 },
        },
    }
}

/// 20 s are 2,560 ticks; 2,560,256 units are left of the way at 1,000 a tick.
#[test]
fn volumes_keep_their_numbers(rt: HostRuntime) -> Result<(), Fail> {
    let alloc = rt.alloc();
    let site = site_b(&rt, alloc)?;
    let soon = [hit_by(0, 512, true), hit_by(2, 512, true)];
    expect_hits_in(&rt, alloc, &site, &[ENTERING], &soon, 0)?;
    let later = [hit_by(0, 2_561, false), hit_by(2, 2_561, false)];
    let far = Track {
        x: -10_501,
        ..ENTERING
    };
    expect_hits_in(&rt, alloc, &site, &[far], &later, 0)?;
    Ok(())
}

/// Over the region, at 18,000 ft, by the first set.
#[test]
fn set_without_apw(rt: HostRuntime) -> Result<(), Fail> {
    let alloc = rt.alloc();
    let site = site_b(&rt, alloc)?;
    let over = Track {
        level: Some(720),
        altitude: Some(720),
        ..ENTERING
    };
    expect_hits_in(&rt, alloc, &site, &[over], &[], 0)?;
    Ok(())
}

/// Two tracks 50 m apart on their way in.
#[test]
fn hits_of_both_nets(rt: HostRuntime) -> Result<(), Fail> {
    let alloc = rt.alloc();
    let site = site_b(&rt, alloc)?;
    let other = Track {
        key: OTHER.key,
        y: 1_100,
        ..ENTERING
    };
    let frozen = table_of(&rt, alloc, &[ENTERING, other])?;
    let found = found(alloc, &frozen, &site)?;
    assert_eq!(rt; found.examined, 1);
    let mut hits = found.hits.iter();
    let rows = [
        (Net::Stca, 1, 2, 0),
        (Net::Apw, 1, 0, 0),
        (Net::Apw, 1, 0, 2),
        (Net::Apw, 2, 0, 0),
        (Net::Apw, 2, 0, 2),
    ];
    for row in rows {
        let subject = hits.next().map(|hit| {
            (
                hit.subject.net,
                hit.subject.key.number,
                hit.subject.other.number,
                hit.subject.object,
            )
        });
        assert_eq!(rt; subject, Some(row));
    }
    assert!(rt; hits.next().is_none());
    Ok(())
}
