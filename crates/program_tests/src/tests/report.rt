//! Reports and fault texts, by hand.

use asterix_blocks::End;
use asterix_fields::ItemFault;
use cat062_read::Refused;
use command_words::Name;
use outside_io::MemSink;
use replay_cli::report::{FeedCount, FeedCounts, Refusals, Report, report_text};
use replay_cli::texts::{FaultText, Refusal, USAGE, tell};
use replay_cli::without_words;
use site_params::{Field, SiteFault};
use std::alloc::{AllocError, Global};
use std::process::Abort;
use std::test::Fail;
use terrain_file::TerrainFault;

/// A feed of which only the refusals and the end are told.
fn feed(
    alloc: Global,
    refused: &[Refused],
    refusals: u64,
    end: End,
) -> Result<FeedCount, AllocError> {
    Ok(FeedCount {
        blocks: 1,
        passed: 2,
        records: 3,
        tracks: 4,
        refused: Refusals::printed_of(alloc, refused)?,
        refusals,
        end,
    })
}

/// A report of these feeds.
fn report(feeds: Vec<FeedCount>) -> Report {
    Report {
        cycles: 5,
        feeds: FeedCounts::new(feeds),
        firsts: 6,
        messages: 7,
    }
}

/// So many refusals, each an octet behind the other.
fn refusals(alloc: Global, count: u64) -> Result<Vec<Refused>, AllocError> {
    let mut refused = Vec::new(alloc);
    for offset in 0..count {
        refused.push(Refused {
            offset,
            fault: ItemFault::LongFspec,
        })?;
    }
    Ok(refused)
}

#[test]
fn report_of_two_tracks(rt: HostRuntime) -> Result<(), Fail> {
    let alloc = rt.alloc();
    let mut feeds = Vec::new(alloc);
    feeds.push(FeedCount {
        blocks: 2,
        passed: 0,
        records: 2,
        tracks: 2,
        refused: Refusals::printed_of(alloc, &[])?,
        refusals: 0,
        end: End::Clean,
    })?;
    let text = report_text(
        alloc,
        &Report {
            cycles: 1,
            feeds: FeedCounts::new(feeds),
            firsts: 1,
            messages: 1,
        },
    )?;
    let wanted =
        b"cycles 1\nfeed 0 blocks 2 passed 0 records 2 tracks 2 end clean\nalerts 1\nmessages 1\n";
    assert_eq!(rt; text.as_slice(), wanted.as_slice());
    Ok(())
}

/// Each detail of a refusal, each end of a feed, and the greatest number.
#[test]
fn details_and_ends(rt: HostRuntime) -> Result<(), Fail> {
    let alloc = rt.alloc();
    let refused = [
        Refused {
            offset: 3,
            fault: ItemFault::LongFspec,
        },
        Refused {
            offset: 28,
            fault: ItemFault::PastEnd(0),
        },
        Refused {
            offset: 1400,
            fault: ItemFault::SpareItem(2),
        },
        Refused {
            offset: 65535,
            fault: ItemFault::SpareSubfield(11, 36),
        },
        Refused {
            offset: u64::MAX,
            fault: ItemFault::ZeroLength(34),
        },
    ];
    let mut feeds = Vec::new(alloc);
    feeds.push(feed(alloc, &refused, 5, End::Truncated(70000))?)?;
    feeds.push(feed(alloc, &[], 0, End::BadLength(9))?)?;
    feeds.push(feed(alloc, &refused[..1], 4, End::Clean)?)?;
    let text = report_text(alloc, &report(feeds))?;
    let wanted = b"cycles 5\n\
feed 0 blocks 1 passed 2 records 3 tracks 4 end truncated at 70000\n\
refused feed 0 at 3 fault 1\n\
refused feed 0 at 28 fault 2 item 0\n\
refused feed 0 at 1400 fault 3 item 2\n\
refused feed 0 at 65535 fault 4 item 11 subfield 36\n\
refused feed 0 at 18446744073709551615 fault 5 item 34\n\
feed 1 blocks 1 passed 2 records 3 tracks 4 end bad length at 9\n\
feed 2 blocks 1 passed 2 records 3 tracks 4 end clean\n\
refused feed 2 at 3 fault 1\n\
refused feed 2 more 3\n\
alerts 6\nmessages 7\n";
    assert_eq!(rt; text.as_slice(), wanted.as_slice());
    Ok(())
}

/// The text of a feed with so many refusals kept, of so many in all, behind whose hundredth stands `more`.
fn check_refusals(
    rt: &impl Abort,
    alloc: Global,
    kept: u64,
    printed: u64,
    all: u64,
    more: &str,
) -> Result<(), Fail> {
    let mut feeds = Vec::new(alloc);
    feeds.push(feed(alloc, refusals(alloc, kept)?.as_slice(), all, End::Clean)?)?;
    let text = report_text(alloc, &report(feeds))?;
    let mut wanted = String::from_str(
        alloc,
        "cycles 5\nfeed 0 blocks 1 passed 2 records 3 tracks 4 end clean\n",
    )?;
    for offset in 0..printed {
        write!(wanted, "refused feed 0 at {offset} fault 1\n")?;
    }
    wanted.push_str(more)?;
    wanted.push_str("alerts 6\nmessages 7\n")?;
    assert_eq!(rt; text.as_slice(), wanted.as_bytes(), "{kept} of {all}");
    Ok(())
}

#[test]
fn refusals_beyond_the_hundredth(rt: HostRuntime) -> Result<(), Fail> {
    check_refusals(&rt, rt.alloc(), 99, 99, 99, "")?;
    check_refusals(&rt, rt.alloc(), 100, 100, 100, "")?;
    check_refusals(&rt, rt.alloc(), 100, 100, 101, "refused feed 0 more 1\n")?;
    check_refusals(&rt, rt.alloc(), 101, 100, 101, "refused feed 0 more 1\n")?;
    check_refusals(&rt, rt.alloc(), 101, 100, 250, "refused feed 0 more 150\n")?;
    check_refusals(&rt, rt.alloc(), 2, 2, 1, "")
}

/// Tells the text to a sink that takes seven bytes at its first writes, and to one that fails at its third.
fn check_text(rt: &impl Abort, alloc: Global, text: &FaultText, wanted: &str) -> Result<(), Fail> {
    let mut sink = MemSink::new(
        alloc,
        200,
        Vec::from_slice(alloc, &[7, 1, 3])?,
        Vec::new(alloc),
    )?;
    tell(text, &mut sink);
    assert_eq!(rt; sink.taken.as_slice(), wanted.as_bytes(), "{wanted}");
    assert_eq!(rt; sink.faults, 0, "{wanted}");
    let mut failing = MemSink::new(
        alloc,
        200,
        Vec::from_slice(alloc, &[4, 2])?,
        Vec::from_slice(alloc, &[2])?,
    )?;
    tell(text, &mut failing);
    assert_eq!(rt;
        failing.taken.as_slice(),
        &wanted.as_bytes()[..6],
        "a prefix of {wanted}"
    );
    assert_eq!(rt; failing.calls, 3, "nothing is tried after it: {wanted}");
    Ok(())
}

/// Words that the system doesn't give are answered as faulty ones are, or as want of memory.
#[test]
fn no_words(rt: HostRuntime) -> Result<(), Fail> {
    let alloc = rt.alloc();
    let mut sink = MemSink::new(alloc, 200, Vec::new(alloc), Vec::new(alloc))?;
    assert_eq!(rt; without_words(false, &mut sink), 2);
    assert_eq!(rt; sink.taken.as_slice(), USAGE.as_bytes());
    let mut sink = MemSink::new(alloc, 200, Vec::new(alloc), Vec::new(alloc))?;
    assert_eq!(rt; without_words(true, &mut sink), 6);
    assert_eq!(rt; sink.taken.as_slice(), "out of memory\n".as_bytes());
    Ok(())
}

#[test]
fn fault_texts(rt: HostRuntime) -> Result<(), Fail> {
    let alloc = rt.alloc();
    let name = Name::new(String::from_str(alloc, "none.ast")?);
    let other = Name::new(String::from_str(alloc, "site.toml")?);
    check_text(&rt, alloc, &FaultText::Usage, USAGE)?;
    check_text(
        &rt,
        alloc,
        &FaultText::CannotOpen(name),
        "cannot open none.ast\n",
    )?;
    check_text(
        &rt,
        alloc,
        &FaultText::ReadFailed(other),
        "read failed: site.toml\n",
    )?;
    check_text(&rt, alloc, &FaultText::WriteFailed, "write failed\n")?;
    check_text(&rt, alloc, &FaultText::NoMemory, "out of memory\n")
}

#[test]
fn site_texts(rt: HostRuntime) -> Result<(), Fail> {
    let alloc = rt.alloc();
    let outer = Field {
        number: 9,
        entry: 0,
    };
    let inner = Field {
        number: 16,
        entry: 63,
    };
    let cases: [(SiteFault, &str); 10] = [
        (SiteFault::Syntax, "site refused: 1\n"),
        (
            SiteFault::Missing(inner),
            "site refused: 2 field 16 entry 63\n",
        ),
        (SiteFault::Kind(outer), "site refused: 3 field 9 entry 0\n"),
        (
            SiteFault::Range(inner, 65),
            "site refused: 4 field 16 entry 63 value 65\n",
        ),
        (
            SiteFault::Range(inner, -1),
            "site refused: 4 field 16 entry 63 value -1\n",
        ),
        (
            SiteFault::Range(outer, i64::MIN),
            "site refused: 4 field 9 entry 0 value -9223372036854775808\n",
        ),
        (
            SiteFault::Twice(inner, 4),
            "site refused: 5 field 16 entry 63 first 4\n",
        ),
        (
            SiteFault::NoSuchName(inner),
            "site refused: 6 field 16 entry 63\n",
        ),
        (SiteFault::Long, "site refused: 7\n"),
        (SiteFault::NoMemory, "out of memory\n"),
    ];
    for (fault, wanted) in cases {
        check_text(
            &rt,
            alloc,
            &FaultText::Refused(Refusal::Site(fault)),
            wanted,
        )?;
    }
    Ok(())
}

#[test]
fn terrain_texts(rt: HostRuntime) -> Result<(), Fail> {
    let alloc = rt.alloc();
    let cases: [(TerrainFault, &str); 5] = [
        (TerrainFault::Magic, "terrain refused: 1\n"),
        (TerrainFault::Cell(99), "terrain refused: 2 side 99\n"),
        (
            TerrainFault::Count(2049, 2),
            "terrain refused: 3 columns 2049 rows 2\n",
        ),
        (
            TerrainFault::Size(28, 27),
            "terrain refused: 4 stated 28 found 27\n",
        ),
        (TerrainFault::NoMemory, "out of memory\n"),
    ];
    for (fault, wanted) in cases {
        check_text(
            &rt,
            alloc,
            &FaultText::Refused(Refusal::Terrain(fault)),
            wanted,
        )?;
    }
    Ok(())
}
