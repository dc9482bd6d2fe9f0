//! The book of alerts: what is kept of all cycles so far.
ghost use Rattle.std.specs.Prelude.{◌≡◌, ◌+◌, ◌<◌, ◌≤◌, ◌↔◌, ◌++◌, List, [], ◌∷◌, All, IfOk, OnOk, OnErr, IsTrue, length};
ghost use Rattle.site_types.specs.Ranges.{IsConfirm};
ghost use Rattle.alert_states.specs.declared.event.Hit.{Hit};
ghost use Rattle.alert_states.specs.Events.{events, firsts};
ghost use Rattle.alert_states.specs.Held.{StandsFor};
ghost use Rattle.alert_states.specs.States.{IsQuiet, live_subjects};
ghost use Rattle.alert_states.specs.Subjects.{AreInOrder};

use crate::NoMemory;
use crate::entry::Entry;
use crate::event::{ALERT_NUMBERS, Event, Hit};
use crate::merge::merge;
use site_types::Confirm;
use std::alloc::Global;
use std::marker::Model;
use std::mem;

/// The alerts of all cycles so far. Of a subject it keeps nothing once it was hit in none of the last cycles
/// that its net looks at.
#[derive(Drop)]
pub struct Book {
    confirm: [Confirm; 4],
    firsts: u16,
    entries: Vec<Entry>,
    /// Room for the entries of the next cycle.
    spare: Vec<Entry>,
}

impl Model for Book {
    ghost use Rattle.std.specs.Prelude.{All};
    ghost use Rattle.site_types.specs.Ranges.{IsConfirm};
    ghost use Rattle.alert_states.specs.Held.{Held};

    ghost Value = { Held };

    ghost view = { λ b. record { confirm = b.confirm; firsts = b.firsts; entries = b.entries.items } };

    ghost invariant = { λ b. All IsConfirm b.confirm };
}

impl Book {
    /// A book before the first cycle, with the settings of the nets in their order.
    pub fn new(alloc: Global, confirm: [Confirm; 4]) -> Book
        requires { All IsConfirm confirm }
        ensures confirm { result.confirm ≡ confirm }
        ensures stands { StandsFor result [] }
    {
        Book {
            confirm,
            firsts: 0,
            entries: Vec::new(alloc),
            spare: Vec::new(alloc),
        }
    }

    /// Takes the hits of the next cycle, and puts what it says of alerts behind the other events. Answers how
    /// many alerts begin.
    pub fn cycle(&mut self, hits: &[Hit], out: &mut Vec<Event>) -> Result<u64, NoMemory>
        requires { AreInOrder hits.now }
        ensures events { OnOk result ((past : List (List Hit)) → StandsFor self.old past → out.new.items ≡ out.old.items ++ events self.old.confirm (hits.now ∷ past)) }
        ensures firsts { IfOk result (λ begun. (past : List (List Hit)) → StandsFor self.old past → begun ≡ length (firsts self.old.confirm (hits.now ∷ past))) }
        ensures stands { OnOk result ((past : List (List Hit)) → StandsFor self.old past → StandsFor self.new (hits.now ∷ past)) }
        ensures kept { self.new.confirm ≡ self.old.confirm }
        ensures err { OnErr result (self.new ≡ self.old) }
        ensures err_out { OnErr result (out.new.items ≡ out.old.items) }
        ensures memory { OnErr result ((past : List (List Hit)) → StandsFor self.old past → 0 < length (live_subjects self.old.confirm past) + length hits.now) }
    {
        let room = self.entries.len() + hits.len();
        out.reserve(room)?;
        self.spare.clear();
        self.spare.reserve(room)?;
        let begun = merge(
            &self.confirm,
            self.firsts,
            self.entries.as_slice(),
            hits,
            &mut self.spare,
            out,
        );
        mem::swap(&mut self.entries, &mut self.spare);
        self.firsts = ((u64::from(self.firsts) + begun) % ALERT_NUMBERS) as u16;
        Ok(begun)
    }

    /// No subject was hit in the last cycles that its net looks at; then no alert is on.
    pub fn quiet(&self) -> bool
        ensures { (past : List (List Hit)) → StandsFor self.now past → IsTrue result ↔ IsQuiet self.now.confirm past }
    {
        self.entries.is_empty()
    }

    /// How many subjects were hit in the last cycles that their nets look at. A cycle says something of at
    /// most so many subjects, and of those that it hits.
    pub fn live(&self) -> u64
        ensures { (past : List (List Hit)) → StandsFor self.now past → result ≡ length (live_subjects self.now.confirm past) }
    {
        self.entries.len() as u64
    }
}
