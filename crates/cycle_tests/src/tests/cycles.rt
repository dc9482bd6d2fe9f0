//! Cycles over a sink in memory. The bytes are worked out by hand from the layout of messages and blocks.
ghost use Rattle.std.specs.Prelude.{◌≡◌, ◌<◌, IfOk};
ghost use Rattle.site_types.specs.Ranges.{IsSite};
ghost use Rattle.cycle_engine.specs.Held.{IsTableOf};

use super::rows::{are_in_order, are_movable};
use super::sites::site_of;
use cycle_engine::{CycleDone, CycleFault, Engine, NoMemory};
use outside_io::{MemSink, Steps};
use site_types::Site;
use std::alloc::Global;
use std::marker::Brand;
use std::process::Abort;
use std::sync::ledger::{Blank, Ledger};
use std::test::Fail;
use terrain_file::Terrain;
use track_motion::{Stamped, Track, TrackKey};
use track_table::{Frozen, Rows};

/// Cycles of four seconds from 36,000 s on. An urgent hit begins an alert at once, and it is held for two cycles.
const SITE_A: &str = "sac = 25
sic = 100
start = 36000
period = 4
timeout = 16
codes = [0o7000]

[confirm]
stca = [2, 3, 2]
msaw = [2, 3, 2]
apw = [1, 1, 1]
apm = [2, 3, 2]

[[set]]
name = \"base\"
stca = true
msaw = true
apw = true
apm = true
look_stca = 120
look_msaw = 60
look_apw = 60
look_apm = 60
h = 9260
v_low = 800
v_high = 1000
split = 29000
now_h = 4630
now_v_low = 500
now_v_high = 600
urgent = 20
";

const START: i64 = 4_608_000;

const PERIOD: i64 = 512;

const KEY: TrackKey = TrackKey {
    sac: 25,
    sic: 10,
    number: 0x0101,
};

const TRACK: Track = Track {
    key: KEY,
    time: 4_608_256,
    x: 0,
    y: 0,
    vx: 1_000,
    vy: 0,
    level: Some(1_320),
    altitude: Some(1_320),
    rate: 0,
    code: None,
    tentative: false,
    simulated: false,
    ended: false,
};

/// Eastbound at 250 m/s at 33,000 ft, told two seconds before cycle 0 ends.
const EASTBOUND: Stamped = Stamped {
    track: TRACK,
    feed: 0,
    place: 0,
    at: 4_608_256,
    window: 0,
};

/// Westbound, 5,000 m ahead of it and 200 ft above.
const WESTBOUND: Stamped = Stamped {
    track: Track {
        key: TrackKey {
            number: 0x0102,
            ..KEY
        },
        x: 10_000,
        vx: -1_000,
        level: Some(1_328),
        altitude: Some(1_328),
        ..TRACK
    },
    place: 1,
    ..EASTBOUND
};

/// The block of their alert, which begins in cycle 0: they are 4,000 m apart then, and meet in 8 s.
const BEGINS: [u8; 42] = [
    0x04, 0x00, 0x2A, 0xDD, 0x91, 0x42, 0x19, 0x64, 0x07, 0x46, 0x52, 0x00, 0x00, 0x00, 0x02, 0x01,
    0x01, 0xFC, 0x00, 0x00, 0x00, 0x00, 0x04, 0x00, 0x00, 0x1F, 0x40, 0x00, 0x00, 0x00, 0x08, 0x00,
    0x08, 0x01, 0x02, 0x07, 0x07, 0x19, 0x0A, 0x19, 0x0A, 0x03,
];

/// Their blocks in the cycles after it, of four seconds each: it is held twice, and ends.
const HELD: [u8; 26] = [
    0x04, 0x00, 0x1A, 0xDD, 0x81, 0x42, 0x19, 0x64, 0x07, 0x46, 0x54, 0x00, 0x00, 0x00, 0x04, 0x01,
    0x01, 0x01, 0x02, 0x07, 0x07, 0x19, 0x0A, 0x19, 0x0A, 0x00,
];

const HELD_AGAIN: [u8; 26] = [
    0x04, 0x00, 0x1A, 0xDD, 0x81, 0x42, 0x19, 0x64, 0x07, 0x46, 0x56, 0x00, 0x00, 0x00, 0x04, 0x01,
    0x01, 0x01, 0x02, 0x07, 0x07, 0x19, 0x0A, 0x19, 0x0A, 0x00,
];

const ENDS: [u8; 26] = [
    0x04, 0x00, 0x1A, 0xDD, 0x81, 0x42, 0x19, 0x64, 0x07, 0x46, 0x58, 0x00, 0x00, 0x00, 0x06, 0x01,
    0x01, 0x01, 0x02, 0x07, 0x07, 0x19, 0x0A, 0x19, 0x0A, 0x00,
];

/// The site of the text, but for want of memory.
fn site_a(rt: &impl Abort, alloc: Global) -> Result<Site, NoMemory>
    ensures range { IfOk result IsSite }
    ensures start { IfOk result (λ site. site.start ≡ START) }
    ensures period { IfOk result (λ site. site.period ≡ PERIOD) }
{
    let site = site_of(rt, alloc, SITE_A)?;
    assert!(rt; site.start == START);
    assert!(rt; site.period == PERIOD);
    Ok(site)
}

/// The table of a cycle of the site with these rows.
fn table_of(
    rt: &impl Abort,
    alloc: Global,
    site: &Site,
    cycle: u64,
    rows: &[Stamped],
) -> Result<Frozen, NoMemory>
    requires start { site.now.start ≡ START }
    requires period { site.now.period ≡ PERIOD }
    ensures { IfOk result (IsTableOf site.now cycle) }
{
    assert!(rt; cycle < 10);
    let time = START + (cycle as i64 + 1) * PERIOD;
    assert!(rt; are_in_order(rows));
    assert!(rt; are_movable(rows, time));
    let rows = Rows::new(rows.to_vec(alloc)?);
    Ok(Frozen { cycle, time, rows })
}

/// Makes a cycle, and makes it again where memory was refused: nothing was written then.
fn made<L: Ledger>(
    rt: &impl Abort,
    engine: &mut Engine<'_>,
    table: &Frozen,
    sink: &mut MemSink,
    steps: &mut Steps<L>,
) -> Result<CycleDone, CycleFault>
    requires table { IsTableOf engine.old.setting.site engine.old.next table.now }
    ensures setting { engine.new.setting ≡ engine.old.setting }
{
    match engine.cycle(table, sink, steps) {
        Err(CycleFault::NoMemory) => {
            assert_eq!(rt; sink.calls, 0);
            engine.cycle(table, sink, steps)
        }
        answer => answer,
    }
}

/// A sink of these takes and failing calls.
fn sink_of(alloc: Global, takes: &[u32], fail: &[u64]) -> Result<MemSink, NoMemory> {
    MemSink::new(alloc, 10_000, takes.to_vec(alloc)?, fail.to_vec(alloc)?)
}

/// Makes the first cycle of the site, of this table.
fn first_cycle(
    rt: &impl Abort,
    alloc: Global,
    site: &Site,
    table: &Frozen,
    sink: &mut MemSink,
) -> Result<CycleDone, CycleFault>
    requires site { IsSite site.now }
    requires table { IsTableOf site.now 0 table.now }
{
    counted::<Brand>(Blank::new(1), rt, alloc, site, table, sink)
}

fn counted<L: Ledger>(
    blank: Blank,
    rt: &impl Abort,
    alloc: Global,
    site: &Site,
    table: &Frozen,
    sink: &mut MemSink,
) -> Result<CycleDone, CycleFault>
    requires name { blank.name ≡ L.name }
    requires parts { blank.parts ≡ L.parts }
    requires some { 0 < blank.parts }
    requires site { IsSite site.now }
    requires table { IsTableOf site.now 0 table.now }
{
    let terrain = Terrain::none(alloc);
    let mut engine = Engine::new(alloc, site, &terrain)?;
    let mut steps = Steps::<L>::new(blank);
    made(rt, &mut engine, table, sink, &mut steps)
}

/// A cycle: its rows, what it comes to, and its alert bytes.
#[derive(Clone, Copy)]
struct Cycle<'a> {
    rows: &'a [Stamped],
    done: CycleDone,
    bytes: &'a [u8],
}

/// A cycle without an alert writes nothing.
const QUIET: CycleDone = CycleDone {
    messages: 0,
    firsts: 0,
    examined: 0,
};

/// Makes these cycles from cycle 0 on. Each is written at once, and without messages not at all.
fn expect_cycles<L: Ledger>(
    blank: Blank,
    rt: &impl Abort,
    alloc: Global,
    cycles: &[Cycle<'_>],
) -> Result<(), NoMemory>
    requires name { blank.name ≡ L.name }
    requires parts { blank.parts ≡ L.parts }
    requires some { 0 < blank.parts }
{
    let site = site_a(rt, alloc)?;
    let terrain = Terrain::none(alloc);
    let mut engine = Engine::new(alloc, &site, &terrain)?;
    let mut steps = Steps::<L>::new(blank);
    for cycle in cycles {
        let table = table_of(rt, alloc, &site, engine.next(), cycle.rows)?;
        let mut sink = sink_of(alloc, &[], &[])?;
        let made = made(rt, &mut engine, &table, &mut sink, &mut steps);
        assert_eq!(rt; made, Ok(cycle.done));
        assert_eq!(rt; sink.taken.as_slice(), cycle.bytes);
        assert_eq!(rt; sink.calls, u64::from(!cycle.bytes.is_empty()));
    }
    Ok(())
}

/// An alert begins with an urgent hit, is held for two cycles without a hit, and ends.
#[test]
fn an_alert_begins_and_ends(rt: HostRuntime) -> Result<(), Fail> {
    let begun = CycleDone {
        messages: 1,
        firsts: 1,
        examined: 1,
    };
    let told = CycleDone {
        messages: 1,
        ..QUIET
    };
    let cycles = [
        Cycle {
            rows: &[EASTBOUND, WESTBOUND],
            done: begun,
            bytes: &BEGINS,
        },
        Cycle {
            rows: &[],
            done: told,
            bytes: &HELD,
        },
        Cycle {
            rows: &[],
            done: told,
            bytes: &HELD_AGAIN,
        },
        Cycle {
            rows: &[],
            done: told,
            bytes: &ENDS,
        },
        Cycle {
            rows: &[],
            done: QUIET,
            bytes: &[],
        },
    ];
    expect_cycles::<Brand>(Blank::new(1), &rt, rt.alloc(), &cycles)?;
    Ok(())
}

/// No row, or one alone.
#[test]
fn no_pair(rt: HostRuntime) -> Result<(), Fail> {
    let cycles = [
        Cycle {
            rows: &[],
            done: QUIET,
            bytes: &[],
        },
        Cycle {
            rows: &[EASTBOUND],
            done: QUIET,
            bytes: &[],
        },
    ];
    expect_cycles::<Brand>(Blank::new(1), &rt, rt.alloc(), &cycles)?;
    Ok(())
}

/// Nine rows, 50 m from one to the next, flying east and west in turn.
fn nine() -> [Stamped; 9] {
    let mut rows = [EASTBOUND; 9];
    for i in 0..9 {
        rows[i].track.key.number = i as u16;
        rows[i].track.x = 100 * i as i32;
        rows[i].track.vx = if i % 2 == 0 { 1_000 } else { -1_000 };
    }
    rows
}

/// 36 messages of 39 octets, of which 35 have room in the first block.
#[test]
fn nine_tracks_head_on(rt: HostRuntime) -> Result<(), Fail> {
    let alloc = rt.alloc();
    let site = site_a(&rt, alloc)?;
    let table = table_of(&rt, alloc, &site, 0, &nine())?;
    let mut sink = sink_of(alloc, &[], &[])?;
    let done = CycleDone {
        messages: 36,
        firsts: 36,
        examined: 36,
    };
    assert_eq!(rt; first_cycle(&rt, alloc, &site, &table, &mut sink), Ok(done));
    let taken = sink.taken.as_slice();
    assert_eq!(rt; taken.len(), 1_410);
    assert_eq!(rt; &taken[..4], [0x04, 0x05, 0x58, 0xDD].as_slice());
    assert_eq!(rt; &taken[1_368..1_372], [0x04, 0x00, 0x2A, 0xDD].as_slice());
    assert_eq!(rt; &taken[1_380..1_383], [0x00, 0x23, 0x02].as_slice());
    Ok(())
}

/// A sink that fails behind 20 octets.
#[test]
fn a_write_that_fails(rt: HostRuntime) -> Result<(), Fail> {
    let alloc = rt.alloc();
    let site = site_a(&rt, alloc)?;
    let table = table_of(&rt, alloc, &site, 0, &[EASTBOUND, WESTBOUND])?;
    let mut sink = sink_of(alloc, &[20], &[1])?;
    let answer = first_cycle(&rt, alloc, &site, &table, &mut sink);
    assert_eq!(rt; answer, Err(CycleFault::WriteFault));
    assert_eq!(rt; sink.taken.as_slice(), &BEGINS[..20]);
    assert_eq!(rt; sink.faults, 1);
    Ok(())
}
