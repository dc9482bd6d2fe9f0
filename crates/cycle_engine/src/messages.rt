//! From the hits of a cycle to what they tell of alerts, and from this to the blocks of its messages.
ghost use Rattle.std.specs.Prelude.{◌≡◌, ◌≤◌, [], length, map, All, IfOk, OnOk, OnErr, pos, ◌≤ℤ◌};
ghost use Rattle.alert_states.specs.Figures.{AreInRoom, FitsMessage};
ghost use Rattle.alert_states.specs.Subjects.{AreInOrder};
ghost use Rattle.cat004_write.specs.Blocks.{Packs, pack};
ghost use Rattle.cycle_engine.specs.Cycles.{message_in};
ghost use Rattle.cycle_engine.specs.Held.{HasPast};
ghost use Rattle.cycle_engine.specs.Outcomes.{Begins, Takes, Tells};

use crate::NoMemory;
use alert_states::laws::{events_bounded, events_carry_hits};
use alert_states::{Book, Event, Hit};
use cat004_write::{Packer, write_event};
use site_types::Site;
use track_table::Frozen;

/// Takes the hits of a cycle into the book, and leaves what they tell in `events`, alone. Answers how many alerts
/// begin. All memory that is wanted, also for the messages, is taken before the book moves.
pub fn tell_events(
    book: &mut Book,
    packer: &mut Packer,
    events: &mut Vec<Event>,
    hits: &[Hit],
) -> Result<u64, NoMemory>
    requires order { AreInOrder hits.now }
    requires room { AreInRoom hits.now }
    requires some { HasPast book.old }
    ensures events { OnOk result (Tells book.old hits.now events.new.items) }
    ensures firsts { IfOk result (Begins book.old hits.now) }
    ensures stands { OnOk result (Takes book.old hits.now book.new) }
    ensures fit { OnOk result (All FitsMessage events.new.items) }
    ensures spare { OnOk result (length events.new.items ≤ packer.new.spare) }
    ensures some { HasPast book.new }
    ensures confirm { book.new.confirm ≡ book.old.confirm }
    ensures blocks { packer.new.blocks ≡ packer.old.blocks }
    ensures err { OnErr result (book.new ≡ book.old) }
{
    events_bounded();
    events_carry_hits();
    packer.reserve(book.live().saturating_add(hits.len() as u64))?;
    events.clear();
    book.cycle(hits, events)
}

/// The blocks of the messages of these events at the table's time. The packer has the memory for them, and is
/// left without messages.
pub fn pack_events(packer: &mut Packer, events: &[Event], f: &Frozen, site: &Site) -> Vec<u8>
    requires time { pos 0 ≤ℤ f.now.time }
    requires fit { All FitsMessage events.now }
    requires spare { length events.now ≤ packer.old.spare }
    requires empty { Packs packer.old.blocks [] }
    ensures bytes { result.items ≡ pack (map (message_in site.now f.now) events.now) }
    ensures emptied { Packs packer.new.blocks [] }
{
    for event in events {
        packer
            .push(&write_event(event, f.time, site.sac, site.sic))
            .unwrap();
    }
    packer.take()
}
