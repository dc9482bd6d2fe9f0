//! One edge of a polygon: where it counts, and at which ticks it counts for a moving track.
ghost use Rattle.std.specs.Prelude.{◌≡◌, ◌<◌, ◌≤◌, ◌^◌, unsigned_abs, ℤ, ◌-ℤ◌, Some, length, pos, slice_get};
ghost use Rattle.tick_sets.specs.Inequalities.{IsLook};
ghost use Rattle.tick_sets.specs.Ticks.{AreTicksWhere};
ghost use Rattle.track_motion.specs.Motions.{InRange};
ghost use Rattle.polygon_plan.specs.Inside.{counts as counts_at, counts_upward, edges};
ghost use Rattle.polygon_plan.specs.Ranges.{ArePoints, IsPoint};
ghost use Rattle.polygon_plan.specs.Sides.{CountsAt, IsBetween, IsLeft, cross_product};

use tick_sets::{Ticks, linear, meet};
use track_motion::Motion;

/// An edge from one point of a polygon to another, in 1/512 m.
#[derive(Clone, Copy)]
pub struct Edge {
    pub from: (i64, i64),
    pub to: (i64, i64),
    ghost from_near: { IsPoint from },
    ghost to_near: { IsPoint to },
}

/// The edge that goes on from point `i`: to the next one, or from the last one to the first.
pub fn edge_at(points: &[(i64, i64)], i: usize) -> Edge
    requires points { ArePoints points.now }
    requires index { i < length points.now }
    ensures { slice_get (edges points.now) i ≡ Some (result.from, result.to) }
{
    let from = points[i];
    let to = if i + 1 < points.len() {
        points[i + 1]
    } else {
        points[0]
    };
    Edge { from, to }
}

impl Edge {
    /// Whether it counts at a place.
    pub fn counts(&self, x: i64, y: i64) -> bool
        ensures { result ≡ counts_at x y (self.now.from, self.now.to) }
    {
        let edge = self.upward();
        edge.from.1 <= y && y < edge.to.1 && edge.cross_to(x, y) < 0
    }

    /// The cross product of the way from `from` to a place and the way to `to`.
    fn cross_to(&self, x: i64, y: i64) -> i128
        ensures bound { unsigned_abs result ≤ 2 ^ 99 }
        ensures product { result ≡ cross_product (x -ℤ self.now.from.0) (y -ℤ self.now.from.1) (self.now.to.0 -ℤ self.now.from.0) (self.now.to.1 -ℤ self.now.from.1) }
    {
        let (along_x, along_y) = (
            difference(self.to.0, self.from.0),
            difference(self.to.1, self.from.1),
        );
        difference(x, self.from.0) * along_y - along_x * difference(y, self.from.1)
    }

    /// The ticks of `0..=l` at which it counts. There are none for a level edge.
    pub fn ticks(&self, m: &Motion, l: i64) -> Ticks
        requires motion { InRange m.now }
        requires look { IsLook l }
        ensures { AreTicksWhere (CountsAt m.now (self.now.from, self.now.to)) l result }
    {
        let edge = self.upward();
        meet(edge.ticks_between(m, l), edge.ticks_left(m, l))
    }

    /// The same edge, from its lower end to its upper one.
    fn upward(&self) -> Edge
        ensures { (x y : ℤ) → counts_at x y (self.now.from, self.now.to) ≡ counts_upward x y result.from result.to }
    {
        if self.from.1 <= self.to.1 {
            *self
        } else {
            Edge {
                from: self.to,
                to: self.from,
            }
        }
    }

    /// The ticks of `0..=l` at which the place is from the height of `from` to below that of `to`.
    fn ticks_between(&self, m: &Motion, l: i64) -> Ticks
        requires motion { InRange m.now }
        requires look { IsLook l }
        ensures { AreTicksWhere (IsBetween m.now self.now.from.1 self.now.to.1) l result }
    {
        let above = linear(i128::from(m.vy), i128::from(m.y - self.from.1), l);
        let below = linear(i128::from(-m.vy), i128::from(self.to.1 - 1 - m.y), l);
        meet(above, below)
    }

    /// The ticks of `0..=l` at which the place is to the left of the edge, seen along it.
    fn ticks_left(&self, m: &Motion, l: i64) -> Ticks
        requires motion { InRange m.now }
        requires look { IsLook l }
        ensures { AreTicksWhere (IsLeft m.now self.now.from self.now.to) l result }
    {
        let (x1, y1) = self.from;
        let (along_x, along_y) = (self.to.0 - x1, self.to.1 - y1);
        let slope = cross(m.vx, m.vy, along_x, along_y);
        let start = cross(m.x - x1, m.y - y1, along_x, along_y);
        linear(-slope, -start - 1, l)
    }
}

/// The difference of two numbers.
fn difference(a: i64, b: i64) -> i128
    ensures { result ≡ a -ℤ b }
{
    i128::from(a) - i128::from(b)
}

/// The cross product of (x, y) and (u, v): below 0 where (x, y) is to the left, seen along (u, v).
fn cross(x: i64, y: i64, u: i64, v: i64) -> i128
    ensures { result ≡ cross_product x y u v }
{
    i128::from(x) * i128::from(v) - i128::from(u) * i128::from(y)
}
