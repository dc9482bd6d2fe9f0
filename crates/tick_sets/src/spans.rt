ghost use Rattle.std.specs.Prelude.{ℤ, ◌≤ℤ◌, ◌↔◌};
ghost use Rattle.tick_sets.specs.Ticks.{Has, IsProper};

use crate::Ticks;

/// The ticks that are in both sets.
pub fn meet(a: Ticks, b: Ticks) -> Ticks
    ensures members { (t : ℤ) → Has result t ↔ (Has a t × Has b t) }
    ensures proper { IsProper result }
{
    match a {
        Ticks::Empty => Ticks::Empty,
        Ticks::Span { first, last } => meet_span(first, last, b),
    }
}

/// The ticks from `first` to `last` that are in the set.
fn meet_span(first: i64, last: i64, ticks: Ticks) -> Ticks
    ensures members { (t : ℤ) → Has result t ↔ ((first ≤ℤ t) × (t ≤ℤ last) × Has ticks t) }
    ensures proper { IsProper result }
{
    match ticks {
        Ticks::Empty => Ticks::Empty,
        Ticks::Span {
            first: start,
            last: end,
        } => span(first.max(start), last.min(end)),
    }
}

/// The ticks from `first` to `last`: none where `first` comes after `last`.
pub(crate) fn span(first: i64, last: i64) -> Ticks
    ensures members { (t : ℤ) → Has result t ↔ ((first ≤ℤ t) × (t ≤ℤ last)) }
    ensures proper { IsProper result }
{
    if first <= last {
        Ticks::Span { first, last }
    } else {
        Ticks::Empty
    }
}
