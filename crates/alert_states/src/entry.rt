//! What is kept of a subject, and what a cycle makes of it.
ghost use Rattle.std.specs.Prelude.{◌≡◌, ℕ, ◌%◌, ◌^◌, ◌≤◌, ◌<◌};
ghost use Rattle.site_types.specs.Ranges.{IsConfirm};
ghost use Rattle.alert_states.specs.States.{status_of};
ghost use Rattle.alert_states.specs.Steps.{begins_by, entry_after as entry_then, event_after as event_then, hits_after as hits_then, number_after as number_then, on_after as on_then};

use crate::event::{Event, Hit, Status, Subject};
use site_types::Confirm;

/// What is kept of a subject.
#[derive(Clone, Copy, Debug)]
pub struct Entry {
    pub subject: Subject,
    /// Its alert is on.
    pub on: bool,
    /// The alert's number while it is on, else 0.
    pub number: u16,
    /// When it was hit in the window of its net: bit i is set where it was hit i cycles ago.
    pub hits: u16,
}

/// A subject that is kept or hit: what is kept of it, and its hit in this cycle.
#[derive(Clone, Copy, Debug)]
pub struct Update {
    pub before: Entry,
    pub hit: Option<Hit>,
}

/// Of the last cycles, so many.
fn last(hits: u32, cycles: u32) -> u32
    requires { cycles ≤ 16 }
    ensures { result ≡ hits % 2 ^ cycles }
{
    hits & ((1 << cycles) - 1)
}

/// When the subject was hit, a cycle later.
fn hits_after(confirm: &Confirm, update: &Update) -> u16
    requires { IsConfirm confirm.now }
    ensures { result ≡ hits_then confirm.now update.now.before.hits update.now.hit }
{
    let hits = u32::from(update.before.hits) * 2 + u32::from(update.hit.is_some());
    last(hits, confirm.n.max(confirm.hold + 1)) as u16
}

/// The hit begins an alert, or would where one is on.
fn begins(confirm: &Confirm, hits: u16, hit: &Option<Hit>) -> bool
    requires { IsConfirm confirm.now }
    ensures { result ≡ begins_by confirm.now hits hit.now }
{
    match hit {
        None => false,
        Some(hit) => hit.urgent || last(u32::from(hits), confirm.n).count_ones() >= confirm.m,
    }
}

/// The alert is on, a cycle later.
fn is_on_after(confirm: &Confirm, hits: u16, update: &Update) -> bool
    requires { IsConfirm confirm.now }
    ensures { result ≡ on_then confirm.now update.now.before.on hits update.now.hit }
{
    begins(confirm, hits, &update.hit)
        || (update.before.on && last(u32::from(hits), confirm.hold + 1) != 0)
}

/// The alert's number, a cycle later; an alert that begins takes the next.
fn number_after(before: &Entry, on: bool, next: u16) -> u16
    ensures { result ≡ number_then before.now.on on before.now.number next }
{
    match (before.on, on) {
        (_, false) => 0,
        (true, true) => before.number,
        (false, true) => next,
    }
}

/// What is kept of the subject, a cycle later.
pub fn entry_after(confirm: &Confirm, update: &Update, next: u16) -> Entry
    requires { IsConfirm confirm.now }
    ensures { result ≡ entry_then confirm.now next update.now }
{
    let before = &update.before;
    let hits = hits_after(confirm, update);
    let on = is_on_after(confirm, hits, update);
    Entry {
        subject: before.subject,
        on,
        number: number_after(before, on, next),
        hits,
    }
}

/// How an alert stands that was on or off before, and is on or off now.
fn status_of(before: bool, now: bool) -> Option<Status>
    ensures { result ≡ status_of before now }
{
    match (before, now) {
        (false, false) => None,
        (false, true) => Some(Status::First),
        (true, true) => Some(Status::Continuing),
        (true, false) => Some(Status::Ended),
    }
}

/// What the cycle says of the subject.
pub fn event_after(update: &Update, on: bool, next: u16) -> Option<Event>
    ensures { result ≡ event_then next update.now on }
{
    let before = &update.before;
    let status = status_of(before.on, on)?;
    Some(Event {
        subject: before.subject,
        status,
        id: if before.on { before.number } else { next },
        hit: update.hit.map(|hit| hit.figures),
    })
}
