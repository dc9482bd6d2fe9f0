//! What goes to `report`: reports of whole feeds, and the text of a site that is refused.

use super::feeds::{ALERT, FIRST, OTHER_CATEGORY, SECOND, half_refused, joined};
use super::outside::{
    Faults, NAME, NO_FAULT, Outside, SITE, WORLD_FAULT, expect, expect_faults, expect_report,
    replayed, run_words,
};
use super::site::{SITE_A, changed};
use std::alloc::{AllocError, Global};
use std::process::Abort;
use std::test::Fail;

/// The report of the two tracks that fly head on.
pub const HEAD_ON_REPORT: &str = "cycles 1
feed 0 blocks 2 passed 0 records 2 tracks 2 end clean
alerts 1
messages 1
";

/// Runs a feed of these pieces: the status, the alerts, and the report.
fn check(
    rt: &impl Abort,
    alloc: Global,
    pieces: &[&[u8]],
    status: u8,
    out: &[u8],
    report: &str,
) -> Result<(), AllocError> {
    let feed = joined(alloc, pieces)?;
    let ran = replayed(alloc, Outside::of(&feed))?;
    expect(rt, &ran, status, out, report);
    expect_report(rt, &ran, report, report);
    Ok(())
}

#[test]
fn reports_of_intact_feeds(rt: HostRuntime) -> Result<(), Fail> {
    let alloc = rt.alloc();
    check(&rt, alloc, &[&FIRST, &SECOND], 0, &ALERT, HEAD_ON_REPORT)?;
    let report = "cycles 0
feed 0 blocks 0 passed 0 records 0 tracks 0 end clean
alerts 0
messages 0
";
    check(&rt, alloc, &[], 0, &[], report)?;
    // A record without items is no usable one.
    let report = "cycles 0
feed 0 blocks 1 passed 1 records 1 tracks 0 end clean
alerts 0
messages 0
";
    let itemless: [&[u8]; 2] = [&OTHER_CATEGORY, &[0x3e, 0x00, 0x04, 0x00]];
    check(&rt, alloc, &itemless, 0, &[], report)?;
    Ok(())
}

#[test]
fn reports_of_damaged_feeds(rt: HostRuntime) -> Result<(), Fail> {
    let alloc = rt.alloc();
    let half = half_refused(alloc)?;
    let report = "cycles 1
feed 0 blocks 2 passed 0 records 2 tracks 2 end clean
refused feed 0 at 28 fault 3 item 2
alerts 1
messages 1
";
    check(&rt, alloc, &[&half, &SECOND], 7, &ALERT, report)?;
    let report = "cycles 1
feed 0 blocks 2 passed 0 records 2 tracks 2 end bad length at 56
alerts 1
messages 1
";
    let too_short: [&[u8]; 3] = [&FIRST, &SECOND, &[0x3e, 0x00, 0x02]];
    check(&rt, alloc, &too_short, 7, &ALERT, report)?;
    let report = "cycles 1
feed 0 blocks 1 passed 0 records 1 tracks 1 end truncated at 28
alerts 0
messages 0
";
    check(&rt, alloc, &[&FIRST, &SECOND[..10]], 7, &[], report)?;
    Ok(())
}

/// Bodies of one octet that asks for another, a block each: each is refused at its first octet.
fn refused_blocks(alloc: Global, count: usize) -> Result<Vec<u8>, AllocError> {
    let mut feed = Vec::new(alloc);
    for _ in 0..count {
        feed.extend_from_slice(&[0x3e, 0x00, 0x04, 0x01])?;
    }
    Ok(feed)
}

/// Of a hundred refusals each has its line; of one more there is a line that counts it.
#[test]
fn a_hundred_refusals_and_one_more(rt: HostRuntime) -> Result<(), Fail> {
    let alloc = rt.alloc();
    for count in [100usize, 101] {
        let feed = refused_blocks(alloc, count)?;
        let mut report = format!(in alloc;
            "cycles 0\nfeed 0 blocks {count} passed 0 records 0 tracks 0 end clean\n"
        )?;
        for number in 0..100usize {
            let place = 4 * number + 3;
            report.push_str(&format!(in alloc; "refused feed 0 at {place} fault 2 item 0\n")?)?;
        }
        if count == 101 {
            report.push_str("refused feed 0 more 1\n")?;
        }
        report.push_str("alerts 0\nmessages 0\n")?;
        let ran = replayed(alloc, Outside::of(&feed))?;
        expect(&rt, &ran, 7, &[], "refusals");
        expect_report(&rt, &ran, &report, "refusals");
    }
    Ok(())
}

/// A write of the report that fails: the alerts were written, and the text behind says so, where it is taken.
#[test]
fn a_report_that_fails(rt: HostRuntime) -> Result<(), Fail> {
    let alloc = rt.alloc();
    let feed = joined(alloc, &[&FIRST, &SECOND])?;
    let once = Faults {
        report: 1,
        ..NO_FAULT
    };
    let twice = Faults {
        report: 2,
        ..NO_FAULT
    };
    let cases: [(&[u32], &[u64], Faults, &str); 4] = [
        (&[], &[0], once, "write failed\n"),
        (&[7], &[1], once, "cycles write failed\n"),
        (&[7, 0], &[], once, "cycles write failed\n"),
        (&[7], &[1, 2], twice, "cycles "),
    ];
    for (report_takes, failing_reports, faults, report) in cases {
        let outside = Outside {
            report_takes,
            failing_reports,
            ..Outside::of(&feed)
        };
        let ran = replayed(alloc, outside)?;
        expect_faults(&rt, &ran, 5, &ALERT, faults, report);
        expect_report(&rt, &ran, report, report);
    }
    Ok(())
}

/// The report of two tracks is written in pieces of seven octets, each of which fails in turn.
#[test]
fn each_write_of_a_report_failing(rt: HostRuntime) -> Result<(), Fail> {
    let alloc = rt.alloc();
    let feed = joined(alloc, &[&FIRST, &SECOND])?;
    let takes = vec![in alloc; 7u32; 20]?;
    for call in 0..12u64 {
        let outside = Outside {
            report_takes: &takes,
            failing_reports: &[call],
            ..Outside::of(&feed)
        };
        let ran = replayed(alloc, outside)?;
        let faults = Faults {
            report: 1,
            ..NO_FAULT
        };
        expect_faults(&rt, &ran, 5, &ALERT, faults, "a report that fails");
        let written = 7 * call as usize;
        assert!(rt; written < HEAD_ON_REPORT.len());
        let text = joined(
            alloc,
            &[&HEAD_ON_REPORT.as_bytes()[..written], b"write failed\n"],
        )?;
        assert!(rt; ran.report.as_slice() == text.as_slice());
    }
    Ok(())
}

/// A fault text that can't be written changes no status.
#[test]
fn a_fault_text_that_fails(rt: HostRuntime) -> Result<(), Fail> {
    let alloc = rt.alloc();
    let outside = Outside {
        asked: "none.ast",
        report_takes: &[7],
        failing_reports: &[1],
        ..Outside::of(&FIRST)
    };
    let ran = replayed(alloc, outside)?;
    let faults = Faults {
        report: 1,
        ..NO_FAULT
    };
    expect_faults(&rt, &ran, 4, &[], faults, "a fault text that fails");
    expect_report(&rt, &ran, "cannot ", "a fault text that fails");
    Ok(())
}

#[test]
fn sites_that_are_refused(rt: HostRuntime) -> Result<(), Fail> {
    let alloc = rt.alloc();
    let cases = [
        (
            "period = 4",
            "period = 0",
            "site refused: 4 field 5 entry 0 value 0\n",
        ),
        ("sac = 25", "", "site refused: 2 field 2 entry 0\n"),
        (
            "sac = 25",
            "sac = true",
            "site refused: 3 field 2 entry 0\n",
        ),
        ("sac = 25", "sac = ", "site refused: 1\n"),
        (
            "urgent = 20",
            "urgent = -1",
            "site refused: 4 field 32 entry 0 value -1\n",
        ),
    ];
    for (old, new, report) in cases {
        let site = changed(alloc, SITE_A, old, new)?;
        let outside = Outside {
            site: site.as_bytes(),
            ..Outside::of(&FIRST)
        };
        let ran = replayed(alloc, outside)?;
        expect(&rt, &ran, 3, &[], report);
        expect_report(&rt, &ran, report, report);
        assert_eq!(rt; ran.opens, 1, "no feed is opened");
    }
    Ok(())
}

/// A site of so many octets: the site of the tests with a comment behind it.
fn site_of(alloc: Global, octets: usize) -> Result<Vec<u8>, AllocError> {
    let mut site = SITE_A.as_bytes().to_vec(alloc)?;
    site.push(b'#')?;
    let more = vec![in alloc; b'-'; octets.saturating_sub(site.len())]?;
    site.extend_from_slice(&more)?;
    Ok(site)
}

#[test]
fn sites_of_the_greatest_length_and_one_octet_more(rt: HostRuntime) -> Result<(), Fail> {
    let alloc = rt.alloc();
    let feed = joined(alloc, &[&FIRST, &SECOND])?;
    for (octets, status, out) in [
        (4_194_304usize, 0, &ALERT[..]),
        (4_194_305, 3, &[]),
        (4_210_000, 3, &[]),
    ] {
        let site = site_of(alloc, octets)?;
        let outside = Outside {
            site: &site,
            ..Outside::of(&feed)
        };
        let ran = replayed(alloc, outside)?;
        expect(&rt, &ran, status, out, "a long site");
        if status == 3 {
            expect_report(&rt, &ran, "site refused: 7\n", "a long site");
            // No more of it is read than tells that it is too long.
            assert_eq!(rt; ran.reads, 257);
        }
    }
    Ok(())
}

/// The site is read in pieces of a hundred octets; each of its reads fails in turn, and so does its open.
#[test]
fn a_site_that_is_not_read(rt: HostRuntime) -> Result<(), Fail> {
    let alloc = rt.alloc();
    for call in 0..5u64 {
        let outside = Outside {
            site_cuts: &[100; 8],
            failing_site_reads: &[call],
            ..Outside::of(&FIRST)
        };
        let ran = replayed(alloc, outside)?;
        expect_faults(&rt, &ran, 4, &[], WORLD_FAULT, "a read that fails");
        expect_report(&rt, &ran, "read failed: site.toml\n", "a read that fails");
        assert_eq!(rt; (ran.opens, ran.reads), (1, call + 1));
    }
    let outside = Outside {
        failing_opens: &[0],
        ..Outside::of(&FIRST)
    };
    let ran = replayed(alloc, outside)?;
    expect_faults(&rt, &ran, 4, &[], WORLD_FAULT, "an open that fails");
    expect_report(&rt, &ran, "cannot open site.toml\n", "an open that fails");
    Ok(())
}
