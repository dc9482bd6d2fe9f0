//! When a track first deviates from an approach, in each of the four ways.
ghost use Rattle.std.specs.Prelude.{◌≡◌, ◌≤ℤ◌, ℤ, unsigned_abs, IfNone, IfSome};
ghost use Rattle.tick_sets.specs.Inequalities.{IsLook};
ghost use Rattle.tick_sets.specs.Ticks.{AreTicksWhere, Has};
ghost use Rattle.site_types.specs.Limits.{IsWithin};
ghost use Rattle.site_types.specs.Ranges.{IsFunnel};
ghost use Rattle.site_types.specs.declared.ranges.TheConstants.{BASE_FEET};
ghost use Rattle.track_motion.specs.Motions.{InRange};
ghost use Rattle.approach_funnel.specs.Apm.{height_over};
ghost use Rattle.approach_funnel.specs.Approaches.{altitude};
ghost use Rattle.approach_funnel.specs.Courses.{IsBesideAt, IsCourse};
ghost use Rattle.approach_funnel.specs.Deviations.{IsAbove, IsBelow};
ghost use Rattle.approach_funnel.specs.Firsts.{AreFirsts, earlier_of, least_of};
ghost use Rattle.approach_funnel.specs.Lines.{Changes};

use crate::approach::Approach;
use crate::course::Course;
use crate::lines::Line;
use crate::units::{STEP_FEET, STEP_HEIGHT};
use site_types::Funnel;
use tick_sets::laws::searches_find_the_first;
use tick_sets::{Ticks, meet};
use track_motion::Motion;

/// The first tick at which a track is below the lower slope, above the upper one, and beside the funnel.
#[derive(Clone, Copy)]
pub struct Firsts {
    pub below: Option<i64>,
    pub above: Option<i64>,
    pub left: Option<i64>,
    pub right: Option<i64>,
}

impl Firsts {
    /// Those of `0..=look` at which the track has not passed the threshold.
    pub fn of(course: Course, m: &Motion, approach: &Approach<'_>, look: i64) -> Firsts
        requires motion { InRange m.now }
        requires funnel { IsFunnel approach.now }
        requires course { IsCourse approach.now m.now course }
        requires look { IsLook look }
        ensures { AreFirsts approach.now m.now (unsigned_abs look) result }
    {
        // The proof takes this law; the call does nothing.
        searches_find_the_first();
        let before = course.distance.ticks_above(look);
        let left = course.offset.negated();
        Firsts {
            below: first_in(before, ticks_below(course, m, approach, look)),
            above: first_in(before, ticks_above(course, m, approach, look)),
            left: first_in(before, ticks_beside(course.distance, left, approach, look)),
            right: first_in(
                before,
                ticks_beside(course.distance, course.offset, approach, look),
            ),
        }
    }

    /// The least of them.
    pub fn least(self) -> Option<i64>
        ensures { result ≡ least_of self }
    {
        earlier(
            earlier(self.below, self.above),
            earlier(self.left, self.right),
        )
    }
}

/// The first tick that is in both sets.
fn first_in(before: Ticks, ticks: Ticks) -> Option<i64>
    ensures none { IfNone result ((t : ℤ) → Has before t → ¬ Has ticks t) }
    ensures member { IfSome result (λ first. Has before first × Has ticks first) }
    ensures first { IfSome result (λ first. (t : ℤ) → Has before t → Has ticks t → first ≤ℤ t) }
{
    match meet(before, ticks) {
        Ticks::Empty => None,
        Ticks::Span { first, .. } => Some(first),
    }
}

/// The lesser of two ticks, or the one that is there.
fn earlier(a: Option<i64>, b: Option<i64>) -> Option<i64>
    ensures { result ≡ earlier_of a b }
{
    match (a, b) {
        (Some(a), Some(b)) => Some(a.min(b)),
        (a, None) => a,
        (None, b) => b,
    }
}

/// The ticks of `0..=look` at which a track is below the lower slope.
fn ticks_below(course: Course, m: &Motion, approach: &Approach<'_>, look: i64) -> Ticks
    requires motion { InRange m.now }
    requires funnel { IsFunnel approach.now }
    requires course { IsCourse approach.now m.now course }
    requires look { IsLook look }
    ensures { AreTicksWhere (IsBelow approach.now m.now) look result }
{
    let f = approach.funnel();
    let lack = height(m, f, f.low_base).negated();
    let slope = approach.slope(f.low_rise);
    slope.ticks_beyond(course.distance.negated(), lack, look)
}

/// The ticks of `0..=look` at which it is above the upper slope.
fn ticks_above(course: Course, m: &Motion, approach: &Approach<'_>, look: i64) -> Ticks
    requires motion { InRange m.now }
    requires funnel { IsFunnel approach.now }
    requires course { IsCourse approach.now m.now course }
    requires look { IsLook look }
    ensures { AreTicksWhere (IsAbove approach.now m.now) look result }
{
    let f = approach.funnel();
    let height = height(m, f, f.high_base);
    let slope = approach.slope(f.high_rise);
    slope.ticks_beyond(course.distance, height, look)
}

/// The ticks of `0..=look` at which a track with this offset is beside the funnel, on the side to which the offset counts.
fn ticks_beside(distance: Line, offset: Line, approach: &Approach<'_>, look: i64) -> Ticks
    requires funnel { IsFunnel approach.now }
    requires look { IsLook look }
    ensures { AreTicksWhere (IsBesideAt approach.now distance.start distance.change offset.start offset.change) look result }
{
    let f = approach.funnel();
    let side = approach.side(f.half, f.side);
    side.ticks_beyond(distance, offset, look)
}

/// A track's height over a slope's base at the threshold, in steps of height.
fn height(m: &Motion, f: &Funnel, base: i64) -> Line
    requires motion { InRange m.now }
    requires funnel { IsFunnel f.now }
    requires base { IsWithin BASE_FEET base }
    ensures { Changes (λ t. height_over f.now base (altitude m.now t)) result.start result.change }
{
    Line {
        start: STEP_FEET * m.alt - STEP_HEIGHT * (f.elevation + base),
        change: STEP_FEET * m.vz,
    }
}
