//! One pass over what is kept and what is hit, both in the order of subjects.
ghost use Rattle.std.specs.Prelude.{◌≡◌, ℕ, ◌+◌, ◌≤◌, ◌<◌, ◌++◌, [], ◌∷◌, All, IfSome, IfNone, length, drop, vec_len, vec_capacity, get_or};
ghost use Rattle.std.specs.List.{cons_option};
ghost use Rattle.site_types.specs.Ranges.{IsConfirm};
ghost use Rattle.alert_states.specs.Merge.{hit_again, hit_first, unhit, updates};
ghost use Rattle.alert_states.specs.Steps.{begun_in, count_begun, kept_after, kept_entry, number_of, renewed, told, told_after};
ghost use Rattle.alert_states.specs.Subjects.{confirm_of as setting_of, subject_cmp};

use crate::entry::{Entry, Update, entry_after, event_after};
use crate::event::{ALERT_NUMBERS, Event, Hit, Status, Subject};
use site_types::{Confirm, Net};
use std::cmp::Ordering;

/// The next subject of what is kept and what is hit, and how many of each are about it.
#[derive(Clone, Copy, Debug)]
struct Next {
    update: Update,
    entries: usize,
    hits: usize,
}

/// The order of subjects.
fn compare(a: &Subject, b: &Subject) -> Ordering
    ensures { result ≡ subject_cmp a.now b.now }
{
    a.cmp(b)
}

/// The subject is only kept.
fn next_kept(entry: &Entry) -> Next
    ensures { result ≡ record { update = unhit entry.now; entries = 1; hits = 0 } }
{
    Next {
        update: Update {
            before: *entry,
            hit: None,
        },
        entries: 1,
        hits: 0,
    }
}

/// The subject is kept and hit.
fn next_both(entry: &Entry, hit: &Hit) -> Next
    ensures { result ≡ record { update = hit_again entry.now hit.now; entries = 1; hits = 1 } }
{
    Next {
        update: Update {
            before: *entry,
            hit: Some(*hit),
        },
        entries: 1,
        hits: 1,
    }
}

/// The subject is only hit.
fn next_hit(hit: &Hit) -> Next
    ensures { result ≡ record { update = hit_first hit.now; entries = 0; hits = 1 } }
{
    Next {
        update: Update {
            before: Entry {
                subject: hit.subject,
                on: false,
                number: 0,
                hits: 0,
            },
            hit: Some(*hit),
        },
        entries: 0,
        hits: 1,
    }
}

/// The next subject, if there is one.
fn next_update(entries: &[Entry], hits: &[Hit]) -> Option<Next>
    ensures none { IfNone result (updates entries.now hits.now ≡ []) }
    ensures first { IfSome result (λ next. updates entries.now hits.now ≡ next.update ∷ updates (drop next.entries entries.now) (drop next.hits hits.now)) }
    ensures entries { IfSome result (λ next. next.entries ≤ length entries.now) }
    ensures hits { IfSome result (λ next. next.hits ≤ length hits.now) }
    ensures some { IfSome result (λ next. 0 < next.entries + next.hits) }
{
    match (entries.first(), hits.first()) {
        (None, None) => None,
        (Some(entry), None) => Some(next_kept(entry)),
        (None, Some(hit)) => Some(next_hit(hit)),
        (Some(entry), Some(hit)) => Some(match compare(&entry.subject, &hit.subject) {
            Ordering::Less => next_kept(entry),
            Ordering::Equal => next_both(entry, hit),
            Ordering::Greater => next_hit(hit),
        }),
    }
}

/// The setting of a net.
fn confirm_of(confirm: &[Confirm; 4], net: Net) -> Confirm
    requires { All IsConfirm confirm.now }
    ensures setting { result ≡ setting_of confirm.now net }
    ensures range { IsConfirm result }
{
    confirm[net.place()]
}

/// Puts a subject that is live behind the others, and what the cycle says of it behind the other events.
/// Answers 1 where its alert begins, else 0.
fn put(
    confirm: &[Confirm; 4],
    begun: u64,
    update: &Update,
    kept: &mut Vec<Entry>,
    events: &mut Vec<Event>,
) -> u64
    requires confirm { All IsConfirm confirm.now }
    requires kept_room { vec_len kept.old < vec_capacity kept.old }
    requires events_room { vec_len events.old < vec_capacity events.old }
    ensures kept { kept.new.items ≡ kept.old.items ++ cons_option (kept_entry (renewed confirm.now begun update.now)) [] }
    ensures events { events.new.items ≡ events.old.items ++ cons_option (told confirm.now begun update.now) [] }
    ensures begun { result ≡ begun_in confirm.now begun update.now }
    ensures one { result ≤ 1 }
    ensures kept_len { vec_len kept.new ≤ vec_len kept.old + 1 }
    ensures events_len { vec_len events.new ≤ vec_len events.old + 1 }
    ensures kept_capacity { vec_capacity kept.new ≡ vec_capacity kept.old }
    ensures events_capacity { vec_capacity events.new ≡ vec_capacity events.old }
{
    let number = (begun % ALERT_NUMBERS) as u16;
    let confirm = confirm_of(confirm, update.before.subject.net);
    let after = entry_after(&confirm, update, number);
    if after.hits != 0 {
        kept.push_reserved(after);
    }
    match event_after(update, after.on, number) {
        None => 0,
        Some(event) => {
            events.push_reserved(event);
            u64::from(event.status == Status::First)
        }
    }
}

/// Puts all subjects that are live behind those in `kept`, and what the cycle says behind the other events,
/// after so many alerts. Answers how many alerts begin.
pub fn merge(
    confirm: &[Confirm; 4],
    firsts: u16,
    entries: &[Entry],
    hits: &[Hit],
    kept: &mut Vec<Entry>,
    events: &mut Vec<Event>,
) -> u64
    requires confirm { All IsConfirm confirm.now }
    requires kept_room { vec_len kept.old + length entries.now + length hits.now ≤ vec_capacity kept.old }
    requires events_room { vec_len events.old + length entries.now + length hits.now ≤ vec_capacity events.old }
    ensures kept { kept.new.items ≡ kept.old.items ++ kept_after confirm.now firsts (updates entries.now hits.now) }
    ensures events { events.new.items ≡ events.old.items ++ told_after confirm.now firsts (updates entries.now hits.now) }
    ensures begun { result ≡ count_begun confirm.now firsts (updates entries.now hits.now) }
    ensures bound { result ≤ length entries.now + length hits.now }
{
    let mut begun = 0;
    let (mut entry, mut hit) = (0, 0);
    while let Some(next) = next_update(&entries[entry..], &hits[hit..]) {
        begun += put(
            confirm,
            u64::from(firsts) + begun,
            &next.update,
            kept,
            events,
        );
        entry += next.entries;
        hit += next.hits;
    }
    begun
}
