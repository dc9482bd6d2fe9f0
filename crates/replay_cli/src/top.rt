//! The program as one function over words, a world and sinks.
ghost use Rattle.std.specs.Prelude.{◌≡◌, ◌≢◌, ◌≤◌, ◌⊎◌, OnOk, false, true};
ghost use Rattle.std.specs.Io.KnownBytes.{Appends};
ghost use Rattle.outside_io.specs.Faults.{Rose};
ghost use Rattle.replay_cli.specs.Found.{found, IfGiven, IsLacking};
ghost use Rattle.replay_cli.specs.Statuses.{CountsPairs, IsDone, Judges, MayWrite, Reports, ReportsWhole, Serves, TellsUnread, status_done, stop_status as status_stopped, sunk};
ghost use Rattle.replay_cli.specs.Endings.{Ends, Finishes, change, ran, status_of, Tells};
ghost use Rattle.replay_cli.specs.FaultTexts.{out_of_memory_text, text_of_fault, write_failed_text};
ghost use Rattle.command_words.specs.Usage.{usage_text};
ghost use Rattle.command_words.specs.Words.{texts};

use crate::named::{feeds_of, site_of, terrain_of};
use crate::request::{Request, asked};
use crate::texts::{FaultText, tell};
use crate::work::{Work, work_of};
use outside_io::{Sink, Sinks, Steps, World, write_whole};
use std::alloc::Global;
use std::sync::ledger::Ledger;

/// Writes the alert bytes of the feeds that the words name, under the site that they name and its terrain.
fn replay<W: World, K: Sink, L: Ledger>(
    alloc: Global,
    words: &[String],
    world: &mut W,
    out: &mut K,
    steps: &mut Steps<L>,
) -> Result<Work, FaultText>
    ensures ends { Ends (ran (W.files world.old) (texts words.now)
        (change (W.faults world.old) (W.faults world.new))
        (sunk (K.taken out.old) (K.taken out.new) (K.faults out.old) (K.faults out.new))) result }
    ensures counted { OnOk result (IfGiven (found (W.files world.old) (texts words.now)) (CountsPairs steps.old steps.new)) }

    // What stays as it was.
    ensures unfailed { status_of result ≢ 4 → W.faults world.new ≡ W.faults world.old }
    ensures later { W.faults world.old ≤ W.faults world.new }
    ensures unbroken { status_of result ≢ 5 → K.faults out.new ≡ K.faults out.old }
    ensures louder { K.faults out.old ≤ K.faults out.new }
    ensures unused { (MayWrite (found (W.files world.old) (texts words.now)) (status_of result) → ⊥) → out.new ≡ out.old }
    ensures files { W.files world.new ≡ W.files world.old }
    ensures closed { W.opened world.new ≡ W.opened world.old }
    ensures steps { steps.old ≤ steps.new }
{
    let Request { site, feeds } = asked(alloc, words)?;
    let site = site_of(alloc, world, site)?;
    let terrain = terrain_of(alloc, world, &site)?;
    let inputs = feeds_of(alloc, world, feeds)?;
    work_of(alloc, &site, &terrain, &inputs, out, steps)
}

/// The exit status of a run whose work is done.
fn done_status(is_intact: bool) -> u8
    ensures { result ≡ status_done is_intact }
{
    if is_intact { 0 } else { 7 }
}

/// The exit status of a run that stopped so.
fn stop_status(stop: &FaultText) -> u8
    ensures { result ≡ status_stopped stop.now }
{
    match stop {
        FaultText::Usage => 2,
        FaultText::Refused(_) => 3,
        FaultText::CannotOpen(_) | FaultText::ReadFailed(_) => 4,
        FaultText::WriteFailed => 5,
        FaultText::NoMemory => 6,
    }
}

/// Writes the fault text of a run that stopped so, and answers the exit status.
fn stop<K: Sink>(stopped: &FaultText, report: &mut K) -> u8
    ensures status { result ≡ status_stopped stopped.now }
    ensures told { Tells (K.taken report.old) (K.taken report.new) (K.faults report.old) (K.faults report.new) (text_of_fault stopped.now) }
{
    tell(stopped, report);
    stop_status(stopped)
}

/// Tells why there are no words, and answers the exit status: 6 where that is want of memory, and else 2.
pub fn without_words<K: Sink>(is_wanting: bool, report: &mut K) -> u8
    ensures wanting { is_wanting ≡ true → result ≡ 6 }
    ensures other { is_wanting ≡ false → result ≡ 2 }
    ensures statuses { (result ≡ 2) ⊎ (result ≡ 6) }

    // What `report` took.
    ensures memory { is_wanting ≡ true → Tells (K.taken report.old) (K.taken report.new) (K.faults report.old) (K.faults report.new) out_of_memory_text }
    ensures usage { is_wanting ≡ false → Tells (K.taken report.old) (K.taken report.new) (K.faults report.old) (K.faults report.new) usage_text }
{
    if is_wanting {
        stop(&FaultText::NoMemory, report)
    } else {
        stop(&FaultText::Usage, report)
    }
}

/// Writes what is due on `report`, and answers the exit status.
fn finish<K: Sink>(ending: Result<Work, FaultText>, report: &mut K) -> u8
    ensures finished { Finishes ending result (sunk (K.taken report.old) (K.taken report.new) (K.faults report.old) (K.faults report.new)) }
    ensures later { K.faults report.old ≤ K.faults report.new }
{
    match ending {
        Ok(work) => {
            if write_whole(report, &work.report).is_ok() {
                done_status(work.is_intact)
            } else {
                stop(&FaultText::WriteFailed, report)
            }
        }
        Err(stopped) => stop(&stopped, report),
    }
}

/// Does all that the program does, and answers the exit status: 0 done, 2 for words that ask for nothing that
/// is done here, 3 for a site or a terrain that is refused, 4 for a name that can't be opened or a read that failed, 5 for a
/// write that failed, 6 for want of memory, 7 done with something refused or a feed that doesn't end behind a
/// whole block. The order is words, site, terrain, feeds, the cycles one after the other, report.
pub fn replay_top<W: World, K: Sink, L: Ledger>(
    alloc: Global,
    words: &[String],
    world: &mut W,
    sinks: &mut Sinks<K>,
    steps: &mut Steps<L>,
) -> u8
    // No other status comes.
    ensures statuses { (result ≡ 0) ⊎ (result ≡ 2) ⊎ (result ≡ 3) ⊎ (result ≡ 4) ⊎ (result ≡ 5) ⊎ (result ≡ 6) ⊎ (result ≡ 7) }

    // The headline: where the world tells the site, its terrain and the feeds, the statuses 0 and 7 have written the reference's
    // alert bytes to `out`, those of all cycles, and any other status a prefix of them.
    ensures headline { IfGiven (found (W.files world.old) (texts words.now))
        (Serves result (sunk (K.taken sinks.old.out) (K.taken sinks.new.out) (K.faults sinks.old.out) (K.faults sinks.new.out))) }

    ensures counted { IsDone result → IfGiven (found (W.files world.old) (texts words.now)) (CountsPairs steps.old steps.new) }

    // The cause of each status.
    ensures judged { Judges (found (W.files world.old) (texts words.now)) result }
    ensures unread { result ≡ 4 → IsLacking (found (W.files world.old) (texts words.now)) ⊎ Rose (W.faults world.old) (W.faults world.new) }
    ensures unwritten { result ≡ 5 → Rose (K.faults sinks.old.out) (K.faults sinks.new.out) ⊎ Rose (K.faults sinks.old.report) (K.faults sinks.new.report) }

    // What `report` took.
    ensures told { Reports (W.files world.old) (texts words.now) result
        (sunk (K.taken sinks.old.report) (K.taken sinks.new.report) (K.faults sinks.old.report) (K.faults sinks.new.report)) }
    ensures whole { IsDone result → ReportsWhole (found (W.files world.old) (texts words.now)) (K.taken sinks.old.report) (K.taken sinks.new.report) }
    ensures unopened { result ≡ 4 → TellsUnread (W.files world.old) (texts words.now) (W.faults world.old) (W.faults world.new)
        (sunk (K.taken sinks.old.report) (K.taken sinks.new.report) (K.faults sinks.old.report) (K.faults sinks.new.report)) }
    ensures alone { result ≡ 5 → (Rose (K.faults sinks.old.report) (K.faults sinks.new.report) → ⊥) → Appends (K.taken sinks.old.report) (K.taken sinks.new.report) write_failed_text }

    // No fault is passed over.
    ensures unfailed { result ≢ 4 → W.faults world.new ≡ W.faults world.old }
    ensures unbroken { result ≢ 5 → K.faults sinks.new.out ≡ K.faults sinks.old.out }
    ensures reported { IsDone result → K.faults sinks.new.report ≡ K.faults sinks.old.report }
    ensures later { W.faults world.old ≤ W.faults world.new }
    ensures out_later { K.faults sinks.old.out ≤ K.faults sinks.new.out }
    ensures report_later { K.faults sinks.old.report ≤ K.faults sinks.new.report }

    // What stays as it was.
    ensures unused { (MayWrite (found (W.files world.old) (texts words.now)) result → ⊥) → sinks.new.out ≡ sinks.old.out }
    ensures files { W.files world.new ≡ W.files world.old }
    ensures closed { W.opened world.new ≡ W.opened world.old }
    ensures steps { steps.old ≤ steps.new }
{
    let ending = replay(alloc, words, world, &mut sinks.out, steps);
    finish(ending, &mut sinks.report)
}
