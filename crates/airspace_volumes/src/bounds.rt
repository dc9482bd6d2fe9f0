//! The bounds of a polygon, and tracks that stay outside of them.
ghost use Rattle.std.specs.Prelude.{◌↔◌, IsTrue, unsigned_abs};
ghost use Rattle.tick_sets.specs.Inequalities.{IsLook};
ghost use Rattle.track_motion.specs.Motions.{InRange};
ghost use Rattle.airspace_volumes.specs.Bounds.{AreBoundsOf, AreInside, IsCourse, IsWithin, StaysBefore, StaysBehind, StaysBeside, StaysOutside};
ghost use Rattle.airspace_volumes.specs.declared.bounds.Bounds.{Bounds as AnyBounds};

use track_motion::Motion;

/// How far points lie along each axis, in 1/512 m.
#[derive(Clone, Copy, Debug, PartialEq, Eq)]
pub struct Bounds {
    pub left: i64,
    pub right: i64,
    pub lower: i64,
    pub upper: i64,
}

impl Bounds {
    /// The bounds of a polygon's points.
    pub fn of(points: &[(i64, i64)]) -> Bounds
        ensures { AreBoundsOf result points.now }
    {
        let (x, y) = points.first().copied().unwrap_or((0, 0));
        let mut bounds = Bounds::at(x, y);
        for (x, y) in points {
            bounds = bounds.with(*x, *y);
        }
        bounds
    }

    /// The bounds of one point.
    fn at(x: i64, y: i64) -> Bounds
        ensures within { IsWithin result (x, y) }
        ensures least { (other : AnyBounds) → IsWithin other (x, y) → AreInside result other }
    {
        Bounds {
            left: x,
            right: x,
            lower: y,
            upper: y,
        }
    }

    /// The bounds of one point more.
    fn with(self, x: i64, y: i64) -> Bounds
        ensures within { IsWithin result (x, y) }
        ensures wider { AreInside self result }
        ensures least { (other : AnyBounds) → IsWithin other (x, y) → AreInside self other → AreInside result other }
    {
        Bounds {
            left: self.left.min(x),
            right: self.right.max(x),
            lower: self.lower.min(y),
            upper: self.upper.max(y),
        }
    }

    /// Along one axis the track stays on one side of the bounds, or at it, at each tick of `0..=look`.
    pub fn stays_outside(self, m: &Motion, look: i64) -> bool
        requires motion { InRange m.now }
        requires look { IsLook look }
        ensures { IsTrue result ↔ StaysOutside self m.now (unsigned_abs look) }
    {
        stays_beside(m.x, m.vx, self.left, self.right, look)
            || stays_beside(m.y, m.vy, self.lower, self.upper, look)
    }
}

/// Along an axis a place stays before both bounds, or at the greater one or behind it.
fn stays_beside(place: i64, speed: i64, low: i64, high: i64, look: i64) -> bool
    requires course { IsCourse place speed }
    requires look { IsLook look }
    ensures { IsTrue result ↔ StaysBeside place speed low high (unsigned_abs look) }
{
    stays_before(place, speed, low, look) || stays_behind(place, speed, high, look)
}

/// A place along an axis is before a bound at each tick of `0..=look`: it is where it is at the first and at
/// the last of them, since it changes evenly.
fn stays_before(place: i64, speed: i64, bound: i64, look: i64) -> bool
    requires course { IsCourse place speed }
    requires look { IsLook look }
    ensures { IsTrue result ↔ StaysBefore place speed bound (unsigned_abs look) }
{
    place < bound && place + speed * look < bound
}

/// It is at the bound or behind it at each of these ticks.
fn stays_behind(place: i64, speed: i64, bound: i64, look: i64) -> bool
    requires course { IsCourse place speed }
    requires look { IsLook look }
    ensures { IsTrue result ↔ StaysBehind place speed bound (unsigned_abs look) }
{
    bound <= place && bound <= place + speed * look
}
