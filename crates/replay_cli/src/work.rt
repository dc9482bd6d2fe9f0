//! What a run comes to: it writes the alert bytes of all cycles, and makes the report.
ghost use Rattle.std.specs.Prelude.{◌≡◌, ◌⊎◌, ◌+◌, ◌≤◌, IfErr, IfOk, IsErrOf, OnErr, OnOk, length, map};
ghost use Rattle.std.specs.Io.KnownBytes.{Appends};
ghost use Rattle.outside_io.specs.Bytes.{AppendsPrefix};
ghost use Rattle.outside_io.specs.Faults.{Rose};
ghost use Rattle.cycle_workers.specs.Settings.{setting};
ghost use Rattle.site_types.specs.Ranges.{IsSite};
ghost use Rattle.terrain_file.specs.Ranges.{IsTerrain};
ghost use Rattle.feed_reader.specs.Content.{are_intact as intact};
ghost use Rattle.feed_reader.specs.Counts.{feed_count};
ghost use Rattle.replay_cli.specs.Counts.{report_by};
ghost use Rattle.feed_reader.specs.Feeds.{AreTellable};
ghost use Rattle.feed_threads.specs.Reference.{alerts, examined};
ghost use Rattle.replay_cli.specs.Endings.{IsWork};
ghost use Rattle.command_words.specs.declared.plan.TheConstants.{MOST_FEEDS};

use crate::report::report_text;
use crate::texts::FaultText;
use feed_reader::{FeedCount, FeedCounts, Input, Report};
use feed_threads::{Made, make_cycles};
use outside_io::{Sink, Steps};
use site_types::Site;
use std::alloc::Global;
use std::sync::ledger::Ledger;
use terrain_file::Terrain;

/// What a run has to write to `report`, and whether its feeds are intact.
#[derive(Debug, Drop)]
pub struct Work {
    pub report: Vec<u8>,
    pub is_intact: bool,
}

/// What was read of each feed.
fn counts_of(alloc: Global, inputs: &[Input]) -> Result<Vec<FeedCount>, FaultText>
    ensures counts { IfOk result (λ counts. counts.items ≡ map feed_count inputs.now) }
    ensures memory { IfErr result (λ e. e ≡ FaultText.NoMemory) }
{
    let mut counts = Vec::new(alloc);
    for input in inputs {
        counts.push(input.count(alloc)?)?;
    }
    Ok(counts)
}

/// The report of feeds whose cycles came to this.
fn report_of(feeds: Vec<FeedCount>, made: Made) -> Report
    ensures { result ≡ report_by feeds.items made }
{
    Report {
        cycles: made.cycles,
        feeds: FeedCounts::new(feeds),
        firsts: made.firsts,
        messages: made.messages,
    }
}

/// Nothing of the feeds is refused, and each ends behind a whole block.
fn are_intact(inputs: &[Input]) -> bool
    ensures { result ≡ intact inputs.now }
{
    inputs.iter().all(|input| input.is_intact())
}

/// Makes all cycles of feeds of these contents and writes their alert bytes; what is to be reported of them.
pub fn work_of<K: Sink, L: Ledger>(
    alloc: Global,
    site: &Site,
    terrain: &Terrain,
    inputs: &[Input],
    out: &mut K,
    steps: &mut Steps<L>,
) -> Result<Work, FaultText>
    requires site { IsSite site.now }
    requires terrain { IsTerrain terrain.now }
    requires tellable { AreTellable inputs.now }
    requires few { length inputs.now ≤ MOST_FEEDS }
    ensures work { IfOk result (IsWork (setting site.now terrain.now) inputs.now) }
    ensures alerts { OnOk result (Appends (K.taken out.old) (K.taken out.new) (alerts (setting site.now terrain.now) inputs.now)) }
    ensures counted { OnOk result (steps.new ≡ steps.old + examined site.now inputs.now) }
    ensures prefix { OnErr result (AppendsPrefix (K.taken out.old) (K.taken out.new) (alerts (setting site.now terrain.now) inputs.now)) }
    ensures fault { IfErr result (λ e. (e ≡ FaultText.NoMemory) ⊎ (e ≡ FaultText.WriteFailed)) }
    ensures broken { IsErrOf result FaultText.WriteFailed → Rose (K.faults out.old) (K.faults out.new) }
    ensures unbroken { (IsErrOf result FaultText.WriteFailed → ⊥) → K.faults out.new ≡ K.faults out.old }
    ensures louder { K.faults out.old ≤ K.faults out.new }
    ensures later { steps.old ≤ steps.new }
{
    let made = make_cycles(alloc, site, terrain, inputs, out, steps)?;
    let counts = counts_of(alloc, inputs)?;
    let report = report_text(alloc, &report_of(counts, made))?;
    Ok(Work {
        report,
        is_intact: are_intact(inputs),
    })
}
