//! The course of a track on an approach.
ghost use Rattle.std.specs.Prelude.{◌≡◌, ◌&&◌, int_le, int_lt, neg_ℤ, pos, is_some, IfSome};
ghost use Rattle.site_types.specs.Ranges.{IsFunnel};
ghost use Rattle.track_motion.specs.Motions.{InRange};
ghost use Rattle.approach_funnel.specs.Approaches.{across as across_of, along as along_of, distance as distance_at, offset as offset_at};
ghost use Rattle.approach_funnel.specs.Apm.{is_captured, reach_of};
ghost use Rattle.approach_funnel.specs.Courses.{IsCourse, IsVector};
ghost use Rattle.approach_funnel.specs.Lines.{Changes};

use crate::approach::Approach;
use crate::lines::{Limit, Line};
use site_types::{Funnel, LENGTH_UNITS_PER_METRE};
use track_motion::Motion;

/// Where a captured track is on an approach: its distance before the threshold and its offset to the right of the
/// centre line, in length units times the length of the landing direction.
#[derive(Clone, Copy)]
pub struct Course {
    pub distance: Line,
    pub offset: Line,
}

impl Course {
    /// The course of a track. None where it isn't captured.
    pub fn captured(m: &Motion, approach: &Approach<'_>) -> Option<Course>
        requires motion { InRange m.now }
        requires funnel { IsFunnel approach.now }
        ensures captured { is_some result ≡ is_captured approach.now m.now }
        ensures course { IfSome result (IsCourse approach.now m.now) }
    {
        let f = approach.funnel();
        let distance = distance(m, f);
        // Few tracks come farther than this.
        if !is_approaching(distance) {
            return None;
        }
        if !is_in_reach(m, approach, distance.start) {
            return None;
        }
        let offset = offset(m, f);
        let sides = approach.side(f.capture_half, f.capture_side);
        if sides.is_beyond(distance.start, offset.start.abs()) {
            return None;
        }
        Some(Course { distance, offset })
    }
}

/// Whether a track with this distance flies in the landing direction and is before the threshold.
fn is_approaching(distance: Line) -> bool
    ensures { result ≡ (int_lt distance.change (pos 0) && int_lt (pos 0) distance.start) }
{
    distance.change < 0 && 0 < distance.start
}

/// Whether a track is not above the ceiling and, at this distance, within the funnel's reach.
fn is_in_reach(m: &Motion, approach: &Approach<'_>, distance: i64) -> bool
    requires { IsFunnel approach.now }
    ensures { result ≡ (int_le m.now.alt approach.now.ceiling && int_le distance (reach_of approach.now)) }
{
    m.alt <= approach.funnel().ceiling && distance <= reach(approach)
}

/// How far before the threshold a funnel begins.
fn reach(approach: &Approach<'_>) -> i64
    requires { IsFunnel approach.now }
    ensures { result ≡ reach_of approach.now }
{
    LENGTH_UNITS_PER_METRE * approach.funnel().reach * approach.length()
}

/// A track's distance before the threshold.
fn distance(m: &Motion, f: &Funnel) -> Line
    requires motion { InRange m.now }
    requires funnel { IsFunnel f.now }
    ensures at_each { Changes (distance_at f.now m.now) result.start result.change }
    ensures start { result.start ≡ distance_at f.now m.now (pos 0) }
    ensures change { result.change ≡ neg_ℤ (along_of f.now m.now.vx m.now.vy) }
{
    Line {
        start: -along(f, m.x - f.x, m.y - f.y),
        change: -along(f, m.vx, m.vy),
    }
}

/// A track's offset to the right of the centre line.
fn offset(m: &Motion, f: &Funnel) -> Line
    requires motion { InRange m.now }
    requires funnel { IsFunnel f.now }
    ensures at_each { Changes (offset_at f.now m.now) result.start result.change }
    ensures start { result.start ≡ offset_at f.now m.now (pos 0) }
{
    Line {
        start: across(f, m.x - f.x, m.y - f.y),
        change: across(f, m.vx, m.vy),
    }
}

/// A vector along the landing direction.
fn along(f: &Funnel, x: i64, y: i64) -> i64
    requires funnel { IsFunnel f.now }
    requires vector { IsVector x y }
    ensures { result ≡ along_of f.now x y }
{
    x * f.dx + y * f.dy
}

/// A vector across the landing direction, to the right.
fn across(f: &Funnel, x: i64, y: i64) -> i64
    requires funnel { IsFunnel f.now }
    requires vector { IsVector x y }
    ensures { result ≡ across_of f.now x y }
{
    x * f.dy - y * f.dx
}
