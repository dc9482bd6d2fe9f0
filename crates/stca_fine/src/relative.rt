//! The relative motion of two tracks: their separations, when they are closest, and when they are within limits.
ghost use Rattle.std.specs.Prelude.{◌≡◌, ◌≤◌, ◌^◌, ◌*◌, ℤ, pos, ◌*ℤ◌, ◌≤ℤ◌, ◌<ℤ◌, int_lt, int_le, unsigned_abs, option_map};
ghost use Rattle.tick_sets.specs.Inequalities.{IsLook, line_at};
ghost use Rattle.tick_sets.specs.Plane.{scalar_product, squared_length};
ghost use Rattle.tick_sets.specs.Ticks.{AreTicksWhere};
ghost use Rattle.stca_fine.specs.Relative.{ArePair, IsDrift, IsLevel, IsLimit, IsNear, IsReach, IsWithin, closest_tick as closest, horizontal as horizontal_of, is_closing as closes, relative, squared_at as squared, vertical as vertical_of};
ghost use Rattle.stca_fine.specs.Stca.{first_within as first_tick_within, is_in_proximity as proximity};

use std::marker::Model;
use tick_sets::laws::{searches_find_the_first, squared_length_is_parabola};
use tick_sets::{Ticks, isqrt, least_tick, linear, meet, quadratic};
use track_motion::Motion;
use track_motion::motion::{HEIGHT_UNITS_PER_25_FEET, LENGTH_UNITS_PER_HALF_METRE};

/// Where one track is from another and how that changes each tick, in the units of a motion.
#[derive(Drop)]
pub struct Relative {
    dx: i64,
    dy: i64,
    dz: i64,
    dvx: i64,
    dvy: i64,
    dvz: i64,
}

impl Model for Relative {
    ghost use Rattle.stca_fine.specs.Relative.{IsDrift, RelativeMotion};

    ghost Value = { RelativeMotion };

    ghost view = { λ r. record { dx = r.dx; dy = r.dy; dz = r.dz; dvx = r.dvx; dvy = r.dvy; dvz = r.dvz } };

    ghost invariant = { λ r. IsDrift r.dx r.dvx × IsDrift r.dy r.dvy × IsDrift r.dz r.dvz };
}

impl Relative {
    /// b's values less a's.
    pub fn between(a: &Motion, b: &Motion) -> Relative
        requires { ArePair a.now b.now }
        ensures { result ≡ relative a.now b.now }
    {
        Relative {
            dx: b.x - a.x,
            dy: b.y - a.y,
            dz: b.z - a.z,
            dvx: b.vx - a.vx,
            dvy: b.vy - a.vy,
            dvz: b.vz - a.vz,
        }
    }

    /// The two are in current proximity, by these limits.
    pub fn is_in_proximity(&self, h: i64, v: i64) -> bool
        requires { pos 0 ≤ℤ h }
        ensures { result ≡ proximity self.now h v }
    {
        self.is_near(h) && is_within(self.dz, v) && self.is_closing()
    }

    /// The first tick of `0..=look` at which the two are within both limits.
    pub fn first_within(&self, h: i64, v: i64, look: i64) -> Option<i64>
        requires { IsReach h v look }
        ensures { result ≡ option_map pos (first_tick_within self.now h v (unsigned_abs look)) }
    {
        // The proof takes this law; the call does nothing.
        searches_find_the_first();
        match self.ticks_within(h, v, look) {
            Ticks::Empty => None,
            Ticks::Span { first, .. } => Some(first),
        }
    }

    /// The least tick of `0..=look` at which the two are horizontally closest.
    pub fn closest_tick(&self, look: i64) -> u16
        requires { IsLook look }
        ensures tick { result ≡ closest self.now (unsigned_abs look) }
        ensures within { pos result ≤ℤ look }
    {
        // The proof takes this law; the call does nothing.
        squared_length_is_parabola();
        least_tick(self.growth(), i128::from(self.approach()), look) as u16
    }

    /// The horizontal separation at a tick in whole half-metres.
    pub fn horizontal(&self, tick: u16) -> u64
        ensures { result ≡ horizontal_of self.now tick }
    {
        isqrt(self.squared_at(tick)) as u64 / u64::from(LENGTH_UNITS_PER_HALF_METRE)
    }

    /// The vertical separation at a tick in whole 25 ft.
    pub fn vertical(&self, tick: u16) -> u64
        ensures { result ≡ vertical_of self.now tick }
    {
        along(self.dz, self.dvz, tick).unsigned_abs() / u64::from(HEIGHT_UNITS_PER_25_FEET)
    }

    /// The horizontal distance at tick 0 is below a limit. That along each axis is looked at first.
    fn is_near(&self, limit: i64) -> bool
        requires { pos 0 ≤ℤ limit }
        ensures { result ≡ int_lt (squared_length self.now.dx self.now.dy) (limit *ℤ limit) }
    {
        is_within(self.dx, limit)
            && is_within(self.dy, limit)
            && square(self.dx) + square(self.dy) < square(limit)
    }

    /// The horizontal distance doesn't grow at tick 0.
    fn is_closing(&self) -> bool
        ensures { result ≡ closes self.now }
    {
        self.approach() <= 0
    }

    /// The ticks of `0..=look` at which the two are within both limits.
    fn ticks_within(&self, h: i64, v: i64, look: i64) -> Ticks
        requires { IsReach h v look }
        ensures { AreTicksWhere (IsWithin self.now h v) look result }
    {
        match self.ticks_near(h, look) {
            Ticks::Empty => Ticks::Empty,
            near => meet(near, self.ticks_level(v, look)),
        }
    }

    /// The ticks of `0..=look` at which the horizontal distance is below a limit.
    fn ticks_near(&self, limit: i64, look: i64) -> Ticks
        requires limit { IsLimit limit }
        requires look { IsLook look }
        ensures { AreTicksWhere (IsNear self.now limit) look result }
    {
        // The proof takes this law; the call does nothing.
        squared_length_is_parabola();
        let approach = i128::from(self.approach());
        let start = self.start() - square(limit) as i128;
        quadratic(self.growth(), approach, start, look)
    }

    /// The ticks of `0..=look` at which the vertical distance is below a limit, in either direction.
    fn ticks_level(&self, limit: i64, look: i64) -> Ticks
        requires limit { IsLimit limit }
        requires look { IsLook look }
        ensures { AreTicksWhere (IsLevel self.now limit) look result }
    {
        let below = linear(i128::from(-self.dvz), i128::from(limit - 1 - self.dz), look);
        let above = linear(i128::from(self.dvz), i128::from(limit - 1 + self.dz), look);
        meet(below, above)
    }

    /// The square of the horizontal distance at a tick, in square length units.
    fn squared_at(&self, tick: u16) -> u128
        ensures { result ≡ squared self.now tick }
    {
        square(along(self.dx, self.dvx, tick)) + square(along(self.dy, self.dvy, tick))
    }

    /// The square of the horizontal distance at tick 0.
    fn start(&self) -> i128
        ensures value { result ≡ squared_length self.now.dx self.now.dy }
        ensures low { pos 0 ≤ℤ result }
        ensures high { result ≤ℤ pos (2 ^ 67) }
    {
        (square(self.dx) + square(self.dy)) as i128
    }

    /// How the square of the horizontal distance grows: the square of the relative speed.
    fn growth(&self) -> i128
        ensures value { result ≡ squared_length self.now.dvx self.now.dvy }
        ensures bound { result <ℤ pos (2 ^ 34) }
    {
        i128::from(self.dvx * self.dvx + self.dvy * self.dvy)
    }

    /// Half of how the square of the horizontal distance changes at tick 0; below 0 where the two approach.
    fn approach(&self) -> i64
        ensures value { result ≡ scalar_product self.now.dx self.now.dy self.now.dvx self.now.dvy }
        ensures bound { unsigned_abs result ≤ 2 ^ 50 }
    {
        self.dx * self.dvx + self.dy * self.dvy
    }
}

/// A distance along an axis is below a limit, in either direction.
fn is_within(distance: i64, limit: i64) -> bool
    ensures { result ≡ int_lt (pos (unsigned_abs distance)) limit }
{
    distance < limit && -limit < distance
}

/// A distance along an axis at a tick.
fn along(apart: i64, speed: i64, tick: u16) -> i64
    requires { IsDrift apart speed }
    ensures { result ≡ line_at speed apart (pos tick) }
{
    apart + speed * i64::from(tick)
}

/// The square of a distance along an axis.
fn square(distance: i64) -> u128
    ensures square { result ≡ unsigned_abs distance * unsigned_abs distance }
    ensures bound { result ≤ 2 ^ 126 }
{
    let size = u128::from(distance.unsigned_abs());
    size * size
}
