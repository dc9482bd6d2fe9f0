//! Runs of the top call over a world in memory, and what they leave.
ghost use Rattle.std.specs.Prelude.{◌≡◌, ◌<◌, Some};
ghost use Rattle.outside_io.specs.Memory.{told};

use super::feeds::ALERT;
use super::site::SITE_A;
use outside_io::memory::{MemFile, MemSink, MemSource, MemWorld};
use outside_io::{OpenFault, Sinks, Steps, World};
use replay_cli::replay_top;
use std::alloc::{AllocError, Global};
use std::marker::Brand;
use std::process::Abort;
use std::sync::ledger::{Blank, Ledger};

/// The names that the world knows: those of two feeds, the site's and the terrain's.
pub const NAME: &str = "a.ast";

pub const OTHER: &str = "b.ast";

pub const SITE: &str = "site.toml";

pub const TERRAIN: &str = "t.ter";

/// The outside of a run: the feed behind `NAME`, another behind `OTHER`, the site behind `SITE` and the terrain behind
/// `TERRAIN`, the feed that is asked for, how reads and writes are cut, and the calls that fail. Calls are numbered
/// from 0; the site is opened first, and then the terrain, where the site names it.
#[derive(Clone, Copy)]
pub struct Outside<'a> {
    pub site: &'a [u8],
    pub feed: &'a [u8],
    pub other: &'a [u8],
    pub asked: &'a str,
    pub cuts: &'a [u32],
    pub failing_reads: &'a [u64],
    pub failing_other_reads: &'a [u64],
    pub site_cuts: &'a [u32],
    pub failing_site_reads: &'a [u64],
    pub terrain: &'a [u8],
    pub terrain_cuts: &'a [u32],
    pub failing_terrain_reads: &'a [u64],
    pub report_takes: &'a [u32],
    pub failing_reports: &'a [u64],
    pub failing_opens: &'a [u64],
    pub takes: &'a [u32],
    pub failing_writes: &'a [u64],
}

impl<'a> Outside<'a> {
    /// A feed that is asked for under a plain site, read and written whole.
    pub fn of(feed: &'a [u8]) -> Outside<'a> {
        Outside {
            site: SITE_A.as_bytes(),
            feed,
            other: &[],
            asked: NAME,
            cuts: &[],
            failing_reads: &[],
            failing_other_reads: &[],
            site_cuts: &[],
            failing_site_reads: &[],
            terrain: &[],
            terrain_cuts: &[],
            failing_terrain_reads: &[],
            report_takes: &[],
            failing_reports: &[],
            failing_opens: &[],
            takes: &[],
            failing_writes: &[],
        }
    }
}

/// How often the world and the sinks failed.
#[derive(Clone, Copy, Debug, PartialEq, Eq)]
pub struct Faults {
    pub world: u64,
    pub out: u64,
    pub report: u64,
}

/// Nothing failed.
pub const NO_FAULT: Faults = Faults {
    world: 0,
    out: 0,
    report: 0,
};

/// An open or a read failed.
pub const WORLD_FAULT: Faults = Faults {
    world: 1,
    ..NO_FAULT
};

/// A write failed.
pub const OUT_FAULT: Faults = Faults { out: 1, ..NO_FAULT };

/// What a run leaves: the status, the bytes on `out` and on `report`, how often a name was opened and read, how
/// many are still open, and the counts of faults.
#[derive(Drop)]
pub struct Ran {
    pub status: u8,
    pub out: Vec<u8>,
    pub report: Vec<u8>,
    pub opens: u64,
    pub reads: u64,
    pub opened: u64,
    pub faults: Faults,
}

/// A world in memory that sums up how often the feeds that it gets back were read.
#[derive(Drop)]
struct Watched {
    world: MemWorld,
    reads: u64,
}

impl World for Watched {
    type Feed = MemSource;

    ghost files = { λ w. Some (told w.world.files.items) };

    ghost faults = { λ w. w.world.faults };

    ghost opened = { λ w. w.world.opened };

    fn open(&mut self, alloc: Global, name: &str) -> Result<MemSource, OpenFault> {
        self.world.open(alloc, name)
    }

    fn close(&mut self, feed: MemSource) {
        self.reads = self.reads.saturating_add(feed.calls);
        self.world.close(feed);
    }
}

/// A file in memory: its name and its bytes, how reads of it are cut, and the reads that fail.
fn file_of(
    alloc: Global,
    name: &str,
    bytes: &[u8],
    cuts: &[u32],
    fail: &[u64],
) -> Result<MemFile, AllocError> {
    Ok(MemFile {
        name: String::from_str(alloc, name)?,
        source: MemSource {
            bytes: bytes.to_vec(alloc)?,
            cuts: cuts.to_vec(alloc)?,
            fail: fail.to_vec(alloc)?,
            at: 0,
            calls: 0,
            faults: 0,
        },
    })
}

/// A world that knows the feeds as `NAME` and `OTHER`, the site as `SITE` and the terrain as `TERRAIN`.
pub fn world_of(alloc: Global, outside: Outside<'_>) -> Result<MemWorld, AllocError> {
    let mut files = Vec::new(alloc);
    let (cuts, fail) = (outside.cuts, outside.failing_reads);
    files.push(file_of(alloc, NAME, outside.feed, cuts, fail)?)?;
    let fail = outside.failing_other_reads;
    files.push(file_of(alloc, OTHER, outside.other, &[], fail)?)?;
    let (cuts, fail) = (outside.site_cuts, outside.failing_site_reads);
    files.push(file_of(alloc, SITE, outside.site, cuts, fail)?)?;
    let (cuts, fail) = (outside.terrain_cuts, outside.failing_terrain_reads);
    files.push(file_of(alloc, TERRAIN, outside.terrain, cuts, fail)?)?;
    Ok(MemWorld {
        files,
        fail: outside.failing_opens.to_vec(alloc)?,
        opens: 0,
        faults: 0,
        opened: 0,
    })
}

/// Runs the words that ask for the feed.
pub fn replayed(alloc: Global, outside: Outside<'_>) -> Result<Ran, AllocError> {
    run_words(alloc, outside, &["replay", "--site", SITE, outside.asked])
}

/// Runs the words.
pub fn run_words(alloc: Global, outside: Outside<'_>, words: &[&str]) -> Result<Ran, AllocError> {
    let mut owned = Vec::new(alloc);
    for word in words {
        owned.push(String::from_str(alloc, word)?)?;
    }
    let mut world = Watched {
        world: world_of(alloc, outside)?,
        reads: 0,
    };
    let takes = outside.takes.to_vec(alloc)?;
    let fail = outside.failing_writes.to_vec(alloc)?;
    let report_takes = outside.report_takes.to_vec(alloc)?;
    let failing_reports = outside.failing_reports.to_vec(alloc)?;
    let mut sinks = Sinks {
        out: MemSink::new(alloc, 100_000, takes, fail)?,
        report: MemSink::new(alloc, 10_000, report_takes, failing_reports)?,
    };
    let status = top::<Brand>(alloc, &owned, &mut world, &mut sinks, Blank::new(1));
    Ok(Ran {
        status,
        out: sinks.out.taken.as_slice().to_vec(alloc)?,
        report: sinks.report.taken.as_slice().to_vec(alloc)?,
        opens: world.world.opens,
        reads: world.reads,
        opened: world.world.opened,
        faults: Faults {
            world: world.world.faults,
            out: sinks.out.faults,
            report: sinks.report.faults,
        },
    })
}

fn top<L: Ledger>(
    alloc: Global,
    words: &[String],
    world: &mut Watched,
    sinks: &mut Sinks<MemSink>,
    blank: Blank,
) -> u8
    requires name { blank.name ≡ L.name }
    requires parts { blank.parts ≡ L.parts }
    requires some { 0 < blank.parts }
{
    let mut steps = Steps::<L>::new(blank);
    replay_top(alloc, words, world, sinks, &mut steps)
}

/// Checks a run in which nothing fails: its status and all that was written.
pub fn expect(rt: &impl Abort, ran: &Ran, status: u8, out: &[u8], what: &str) {
    expect_faults(rt, ran, status, out, NO_FAULT, what);
}

/// Checks a run: its status, all that was written, and the counts of faults.
pub fn expect_faults(
    rt: &impl Abort,
    ran: &Ran,
    status: u8,
    out: &[u8],
    faults: Faults,
    what: &str,
) {
    assert!(rt; ran.out.as_slice() == out, "bytes: {what}");
    expect_left(rt, ran, status, faults, what);
}

/// Checks a run in which nothing fails: its status, and how many octets were written.
pub fn expect_octets(rt: &impl Abort, ran: &Ran, status: u8, octets: usize, what: &str) {
    assert_eq!(rt; ran.out.len(), octets, "octets: {what}");
    expect_left(rt, ran, status, NO_FAULT, what);
}

/// Checks a run in which nothing fails: its status, and that it wrote a block of one alert, or nothing.
pub fn expect_alert(rt: &impl Abort, ran: &Ran, status: u8, is_alert: bool, what: &str) {
    let octets = if is_alert { ALERT.len() } else { 0 };
    expect_octets(rt, ran, status, octets, what);
}

/// Checks what a run wrote to `report`.
pub fn expect_report(rt: &impl Abort, ran: &Ran, text: &str, what: &str) {
    assert!(rt; ran.report.as_slice() == text.as_bytes(), "report: {what}");
}

/// Checks a status, that no name is left open, and the counts of faults.
fn expect_left(rt: &impl Abort, ran: &Ran, status: u8, faults: Faults, what: &str) {
    assert_eq!(rt; ran.status, status, "status: {what}");
    assert_eq!(rt; ran.opened, 0, "feeds left open: {what}");
    assert_eq!(rt; ran.faults, faults, "faults: {what}");
}
