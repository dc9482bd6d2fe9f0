ghost use Rattle.std.specs.Prelude.{ℤ, ◌≤ℤ◌, IfOk, OnOk, OnErr, IfSome, IfNone, IsSorted};
ghost use Rattle.std.specs.Ordering.{int_cmp};
ghost use Rattle.tick_sets.specs.declared.Ticks.TheVariants.{Span};
ghost use Rattle.tick_sets.specs.Ends.{AddsEnds, AreEndsOf, IsAfterOddEnds};
ghost use Rattle.tick_sets.specs.Ticks.{Has, HaveSome, IsFirstTick, IsInOddNumber};

use crate::Ticks;
use std::alloc::{AllocError, Global};

/// The least tick of `within` that is in an odd number of the sets, or `None`. A `Span` whose `last`
/// is before its `first` has no tick.
pub fn odd_first(alloc: Global, sets: &[Ticks], within: Ticks) -> Result<Option<i64>, AllocError>
    ensures found { IfOk result (λ answer. IfSome answer (IsFirstTick (IsInOddNumber sets.now) within)) }
    ensures none { IfOk result (λ answer. IfNone answer ((t : ℤ) → Has within t → ¬ IsInOddNumber sets.now t)) }
    // Want of memory is answered only where `within` has a tick.
    ensures memory { OnErr result ((t : ℤ) × Has within t) }
    // It is answered only where one of the sets has one, too.
    ensures sets { OnErr result (HaveSome sets.now) }
{
    match within {
        Ticks::Span { first, last } if first <= last => {
            let mut ends = ends_of(alloc, sets)?;
            ends.sort_unstable();
            Ok(first_odd(&ends, first, last))
        }
        _ => Ok(None),
    }
}

/// The first tick from `first` to `last` with an odd number of the ends at or before it.
///
/// The number changes at the ends alone, so `first` and the ends after it are the ticks to look at.
fn first_odd(ends: &[i64], first: i64, last: i64) -> Option<i64>
    requires sorted { IsSorted int_cmp ends.now }
    requires proper { first ≤ℤ last }
    ensures found { IfSome result (IsFirstTick (IsAfterOddEnds ends.now) (Span first last)) }
    ensures none { IfNone result ((t : ℤ) → Has (Span first last) t → ¬ IsAfterOddEnds ends.now t) }
{
    let mut tick = first;
    let mut odd = false;
    for end in ends {
        if tick < *end {
            if odd {
                return Some(tick);
            }
            if last < *end {
                return None;
            }
            tick = *end;
        }
        odd = !odd;
    }
    if odd { Some(tick) } else { None }
}

/// The ticks at which the sets begin and have just ended, in the order of the sets.
fn ends_of(alloc: Global, sets: &[Ticks]) -> Result<Vec<i64>, AllocError>
    ensures ends { IfOk result (λ ends. AreEndsOf sets.now ends.items) }
    ensures memory { OnErr result (HaveSome sets.now) }
{
    let mut ends = Vec::new(alloc);
    for ticks in sets {
        push_ends(&mut ends, *ticks)?;
    }
    Ok(ends)
}

/// The set's first tick and the tick after its last, unless no tick comes after it.
fn push_ends(ends: &mut Vec<i64>, ticks: Ticks) -> Result<(), AllocError>
    ensures ends { OnOk result (AddsEnds ends.old.items ends.new.items ticks) }
    ensures memory { OnErr result ((t : ℤ) × Has ticks t) }
{
    match ticks {
        Ticks::Span { first, last } if first <= last => {
            ends.push(first)?;
            if last < i64::MAX {
                ends.push(last + 1)?;
            }
            Ok(())
        }
        _ => Ok(()),
    }
}
