//! The first tick at which a moving track is inside a polygon.
ghost use Rattle.std.specs.Prelude.{ℤ, IfOk, OnErr, IfSome, IfNone};
ghost use Rattle.tick_sets.specs.Inequalities.{IsLook};
ghost use Rattle.tick_sets.specs.Ticks.{Has, IsFirstTick};
ghost use Rattle.track_motion.specs.Motions.{InRange};
ghost use Rattle.polygon_plan.specs.Inside.{IsInsideAt, edges};
ghost use Rattle.polygon_plan.specs.Ranges.{AreAhead, ArePoints};
ghost use Rattle.polygon_plan.specs.Sides.{AreCounted};

use crate::NoMemory;
use crate::edge::edge_at;
use std::alloc::Global;
use tick_sets::{Ticks, odd_first};
use track_motion::Motion;

/// The first tick of `within` at which the place of the motion is inside the polygon of these points, or
/// `None`. A tick is 1/128 s. The place at tick 0 is the motion's own.
pub fn inside_ticks(
    alloc: Global,
    points: &[(i64, i64)],
    m: &Motion,
    within: Ticks,
) -> Result<Option<i64>, NoMemory>
    requires points { ArePoints points.now }
    requires motion { InRange m.now }
    requires ahead { AreAhead within }
    ensures found { IfOk result (λ answer. IfSome answer (IsFirstTick (IsInsideAt points.now m.now) within)) }
    ensures none { IfOk result (λ answer. IfNone answer ((t : ℤ) → Has within t → ¬ IsInsideAt points.now m.now t)) }
    // Want of memory is answered only where `within` has a tick.
    ensures memory { OnErr result ((t : ℤ) × Has within t) }
{
    match within {
        Ticks::Span { first, last } if first <= last => {
            let sets = counted(alloc, points, m, last)?;
            odd_first(alloc, &sets, within)
        }
        _ => Ok(None),
    }
}

/// The ticks of `0..=l` at which each edge counts, in the order of the edges.
fn counted(alloc: Global, points: &[(i64, i64)], m: &Motion, l: i64) -> Result<Vec<Ticks>, NoMemory>
    requires points { ArePoints points.now }
    requires motion { InRange m.now }
    requires look { IsLook l }
    ensures { IfOk result (λ sets. AreCounted (edges points.now) m.now l sets.items) }
{
    let mut sets = Vec::with_capacity(alloc, points.len())?;
    for i in 0..points.len() {
        sets.push(edge_at(points, i).ticks(m, l))?;
    }
    Ok(sets)
}
