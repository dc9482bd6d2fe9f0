//! The lines of a report, one kind after the other.
ghost use Rattle.std.specs.Prelude.{◌≡◌, ◌++◌, ◌-◌, OnOk};
ghost use Rattle.std.specs.String.{string_bytes};
ghost use Rattle.std.specs.List.{flat_map};
ghost use Rattle.replay_cli.specs.ReportText as text_of;

use asterix_blocks::End;
use asterix_fields::ItemFault;
use cat062_read::Refused;
use feed_reader::FeedCount;
use feed_reader::counts::printed;
use outside_io::NoMemory;

/// The line of a number.
pub fn put_number(text: &mut String, name: &str, number: u64) -> Result<(), NoMemory>
    ensures { OnOk result (string_bytes text.new ≡ string_bytes text.old ++ text_of.number_line name.now number) }
{
    write!(text, "{name} {number}\n")
}

/// How a feed ends.
fn put_end(text: &mut String, end: End) -> Result<(), NoMemory>
    ensures { OnOk result (string_bytes text.new ≡ string_bytes text.old ++ text_of.end_text end) }
{
    match end {
        End::Clean => write!(text, "clean"),
        End::Truncated(offset) => write!(text, "truncated at {offset}"),
        End::BadLength(offset) => write!(text, "bad length at {offset}"),
    }
}

/// The number of a fault, and what more is told of it.
fn put_fault(text: &mut String, fault: ItemFault) -> Result<(), NoMemory>
    ensures { OnOk result (string_bytes text.new ≡ string_bytes text.old ++ text_of.fault_text fault) }
{
    match fault {
        ItemFault::LongFspec => write!(text, "1"),
        ItemFault::PastEnd(item) => write!(text, "2 item {item}"),
        ItemFault::SpareItem(item) => write!(text, "3 item {item}"),
        ItemFault::SpareSubfield(item, subfield) => {
            write!(text, "4 item {item} subfield {subfield}")
        }
        ItemFault::ZeroLength(item) => write!(text, "5 item {item}"),
    }
}

/// The line of a feed.
fn put_feed_line(text: &mut String, feed: usize, count: &FeedCount) -> Result<(), NoMemory>
    ensures { OnOk result (string_bytes text.new ≡ string_bytes text.old ++ text_of.feed_line feed count.now) }
{
    let FeedCount {
        blocks,
        passed,
        records,
        tracks,
        ..
    } = count;
    write!(
        text,
        "feed {feed} blocks {blocks} passed {passed} records {records} tracks {tracks} end "
    )?;
    put_end(text, count.end)?;
    write!(text, "\n")
}

/// The line of a refusal.
fn put_refusal(text: &mut String, feed: usize, refused: &Refused) -> Result<(), NoMemory>
    ensures { OnOk result (string_bytes text.new ≡ string_bytes text.old ++ text_of.refusal_line feed refused.now) }
{
    let offset = refused.offset;
    write!(text, "refused feed {feed} at {offset} fault ")?;
    put_fault(text, refused.fault)?;
    write!(text, "\n")
}

/// The lines of these refusals.
fn put_refusals(text: &mut String, feed: usize, refusals: &[Refused]) -> Result<(), NoMemory>
    ensures { OnOk result (string_bytes text.new ≡ string_bytes text.old ++ flat_map (text_of.refusal_line feed) refusals.now) }
{
    for refused in refusals {
        put_refusal(text, feed, refused)?;
    }
    Ok(())
}

/// The line of the other refusals, where there are any.
fn put_more(text: &mut String, feed: usize, more: u64) -> Result<(), NoMemory>
    ensures { OnOk result (string_bytes text.new ≡ string_bytes text.old ++ text_of.more_line feed more) }
{
    if more == 0 {
        return Ok(());
    }
    write!(text, "refused feed {feed} more {more}\n")
}

/// The lines of a feed.
fn put_feed(text: &mut String, feed: usize, count: &FeedCount) -> Result<(), NoMemory>
    ensures { OnOk result (string_bytes text.new ≡ string_bytes text.old ++ text_of.feed_lines feed count.now) }
{
    let refusals = printed(count.refused.as_slice());
    put_feed_line(text, feed, count)?;
    put_refusals(text, feed, refusals)?;
    put_more(
        text,
        feed,
        count.refusals.saturating_sub(refusals.len() as u64),
    )
}

/// The lines of all feeds.
pub fn put_feeds(text: &mut String, feeds: &[FeedCount]) -> Result<(), NoMemory>
    ensures { OnOk result (string_bytes text.new ≡ string_bytes text.old ++ text_of.feeds_lines feeds.now) }
{
    for (feed, count) in feeds.iter().enumerate() {
        put_feed(text, feed, count)?;
    }
    Ok(())
}
