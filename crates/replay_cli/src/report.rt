//! The report of a run, and its text.
ghost use Rattle.std.specs.Prelude.{◌≡◌, IfOk};
ghost use Rattle.replay_cli.specs.ReportText.{text_of};

mod lines;

use crate::report::lines::{put_feeds, put_number};
pub use feed_reader::{FeedCount, FeedCounts, MOST_REFUSALS, Refusals, Report};
use outside_io::NoMemory;
use std::alloc::Global;

/// The text of the report.
pub fn report_text(alloc: Global, report: &Report) -> Result<Vec<u8>, NoMemory>
    ensures { IfOk result (λ text. text.items ≡ text_of report.now) }
{
    let mut text = String::new(alloc);
    put_number(&mut text, "cycles", report.cycles)?;
    put_feeds(&mut text, report.feeds.as_slice())?;
    put_number(&mut text, "alerts", report.firsts)?;
    put_number(&mut text, "messages", report.messages)?;
    Ok(text.into_bytes())
}
