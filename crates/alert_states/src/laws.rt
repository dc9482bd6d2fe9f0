//! Laws of the definitions: each is the contract of a function that does nothing.
ghost use Rattle.std.specs.Prelude.{◌≡◌, ℕ, ◌+◌, ◌≤◌, true, false, List, [], ◌∷◌, length, map, count_by, All, Option, Some};
ghost use Rattle.std.specs.List.Sorted.{IsStrictlySortedBy};
ghost use Rattle.site_types.specs.declared.site.Confirm.{Confirm};
ghost use Rattle.alert_states.specs.declared.event.Event.{Event};
ghost use Rattle.alert_states.specs.declared.event.Hit.{Hit};
ghost use Rattle.alert_states.specs.declared.event.Subject.{Subject};
ghost use Rattle.alert_states.specs.declared.event.TheConstants.{ABOVE, ALERT_NUMBERS, BELOW, CURRENT_PROXIMITY, LEFT, RIGHT, URGENT};
ghost use Rattle.alert_states.specs.Events.{events, firsts, is_first};
ghost use Rattle.alert_states.specs.Figures.{AreInRoom, FitsMessage};
ghost use Rattle.alert_states.specs.States.{IsQuiet, is_live, is_on, live_subjects};
ghost use Rattle.alert_states.specs.Subjects.{AreInOrder, confirm_of, marks, subject_cmp, subjects};

/// The numbers: how many there are for alerts, and the flags of a hit.
pub fn numbers()
    ensures alert_numbers { ALERT_NUMBERS ≡ 65536 }
    ensures urgent { URGENT ≡ 1 }
    ensures current_proximity { CURRENT_PROXIMITY ≡ 2 }
    ensures below { BELOW ≡ 4 }
    ensures above { ABOVE ≡ 8 }
    ensures left { LEFT ≡ 16 }
    ensures right { RIGHT ≡ 32 }
{}

/// A subject whose alert is on was hit in the last cycles that its net looks at.
pub fn on_is_live()
    ensures { (c : Confirm) (marks : List (Option Hit)) → is_on c marks ≡ true → is_live c marks ≡ true }
{}

/// Where no subject was hit in the last cycles that its net looks at, no alert is on.
pub fn quiet_is_off()
    ensures { (confirms : List Confirm) (past : List (List Hit)) (s : Subject) → IsQuiet confirms past → is_on (confirm_of confirms s.net) (marks past s) ≡ false }
{}

/// A cycle says something of at most the subjects that are live before it and those that it hits.
pub fn events_bounded()
    ensures { (confirms : List Confirm) (past : List (List Hit)) (hits : List Hit) → AreInOrder hits
        → length (events confirms (hits ∷ past)) ≤ length (live_subjects confirms past) + length hits }
{}

/// As many events of a cycle are First as alerts begin in it.
pub fn firsts_are_told()
    ensures { (confirms : List Confirm) (past : List (List Hit)) → count_by (λ e. is_first (Some e.status)) (events confirms past) ≡ length (firsts confirms past) }
{}

/// The events of a cycle stand in the order of their subjects, each subject once.
pub fn events_in_order()
    ensures { (confirms : List Confirm) (past : List (List Hit)) → IsStrictlySortedBy subject_cmp (map (λ e. e.subject) (events confirms past)) }
{}

/// An event carries the figures of a hit of its cycle: where those of all its hits fit a message, so do those of
/// its events.
pub fn events_carry_hits()
    ensures { (confirms : List Confirm) (past : List (List Hit)) (hits : List Hit) → AreInRoom hits → All FitsMessage (events confirms (hits ∷ past)) }
{}
