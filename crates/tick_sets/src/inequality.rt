ghost use Rattle.std.specs.Prelude.{ℤ, ℕ, pos, ◌+ℤ◌, ◌*ℤ◌, ◌≤ℤ◌, ◌<ℤ◌, ◌≡◌, IsTrue, IfSome, IfNone, unsigned_abs};
ghost use Rattle.tick_sets.specs.Inequalities.{IsLine, IsLook, IsParabola, IsRaised, line_at, parabola_at};
ghost use Rattle.tick_sets.specs.Roots.{least_tick_of};
ghost use Rattle.tick_sets.specs.Steps.{IsFraction, IsFractionBefore, IsNearVertex, IsQuotient, IsRootBelow, IsWalk, Reaches, StaysAbove, StaysWithin, discriminant};
ghost use Rattle.tick_sets.specs.Ticks.{AreTicksWhere, IsLeastTick};

use crate::Ticks;
use crate::root::isqrt;
use crate::spans::span;

/// The ticks t of `0..=l` with `a*t + b >= 0`.
pub fn linear(a: i128, b: i128, l: i64) -> Ticks
    requires line { IsLine a b }
    requires look { IsLook l }
    ensures { AreTicksWhere (λ t. pos 0 ≤ℤ line_at a b t) l result }
{
    let at_end = value_at(a, b, l);
    if b >= 0 {
        if at_end >= 0 {
            span(0, l)
        } else {
            span(0, tick_quotient(b, -a, l))
        }
    } else if at_end >= 0 {
        span(tick_quotient(-1 - b, a, l) + 1, l)
    } else {
        Ticks::Empty
    }
}

/// The ticks t of `0..=l` with `a*t*t + 2*b*t + c < 0`: those at which two tracks are nearer than a
/// distance, where `a` is the square of their relative speed.
pub fn quadratic(a: i128, b: i128, c: i128, l: i64) -> Ticks
    requires parabola { IsParabola a b c }
    requires look { IsLook l }
    ensures { AreTicksWhere (λ t. parabola_at a b c t <ℤ pos 0) l result }
{
    let parabola = Parabola { a, b, c };
    if parabola.stays_above(l) {
        return Ticks::Empty;
    }
    if a == 0 {
        return linear(-2 * b, -1 - c, l);
    }
    parabola.near_vertex(l)
}

/// The least tick of `0..=l` at which `a*t*t + 2*b*t` is least: the tick of closest approach, the
/// earlier of two that tie.
pub fn least_tick(a: i128, b: i128, l: i64) -> i64
    requires parabola { IsParabola a b (pos 0) }
    requires look { IsLook l }
    ensures least { IsLeastTick (λ t. a *ℤ t *ℤ t +ℤ pos 2 *ℤ b *ℤ t) l result }
    // The same, of whatever is that parabola raised by a number, as the square of a distance is.
    ensures raised { (f : ℕ → ℕ) → IsRaised f a b l → result ≡ pos (least_tick_of f (unsigned_abs l)) }
{
    // The value at t + 1 is not below that at t where 2*a*t is at least -2*b - a.
    first_reaching(2 * a as i64, -2 * b as i64 - a as i64, l).min(l)
}

/// The value of `a*t + b` at `l`.
fn value_at(a: i128, b: i128, l: i64) -> i128
    requires line { IsLine a b }
    requires look { IsLook l }
    ensures { result ≡ line_at a b l }
{
    a * l as i128 + b
}

/// A parabola `a*t*t + 2*b*t + c` over the ticks t.
#[derive(Clone, Copy)]
struct Parabola {
    a: i128,
    b: i128,
    c: i128,
    ghost range: { IsParabola a b c },
}

impl Parabola {
    /// Whether the ends alone show that it does not come below 0 by `l`: it starts at or above 0, and
    /// never falls, or still falls at `l` and is at or above 0 there.
    fn stays_above(&self, l: i64) -> bool
        requires { IsLook l }
        ensures { IsTrue result → StaysAbove self.now.a self.now.b self.now.c l }
    {
        if self.c < 0 {
            return false;
        }
        if self.b >= 0 {
            return true;
        }
        let slope = value_at(self.a, self.b, l);
        slope <= 0 && value_at(slope + self.b, self.c, l) >= 0
    }

    /// The ticks t of `0..=l` at which the square of `a*t + b` is below the discriminant. Where the
    /// parabola bends, those are the ticks at which it is below 0.
    fn near_vertex(&self, l: i64) -> Ticks
        requires { IsLook l }
        ensures { AreTicksWhere (IsNearVertex self.now.a self.now.b self.now.c) l result }
    {
        let Some(root) = self.reach() else {
            return Ticks::Empty;
        };
        let b = self.b as i64;
        multiples_between(self.a as i64, -root - b, root - b, l)
    }

    /// The greatest number whose square is below the discriminant. None where there is none.
    fn reach(&self) -> Option<i64>
        ensures found { IfSome result (IsRootBelow (discriminant self.now.a self.now.b self.now.c)) }
        ensures none { IfNone result (discriminant self.now.a self.now.b self.now.c ≤ℤ pos 0) }
    {
        let square = self.b * self.b - self.a * self.c;
        if square <= 0 {
            return None;
        }
        Some(isqrt((square - 1) as u128) as i64)
    }
}

/// The ticks t of `0..=l` with `step*t` from `low` to `high`.
fn multiples_between(step: i64, low: i64, high: i64, l: i64) -> Ticks
    requires { IsWalk step l }
    ensures { AreTicksWhere (λ t. (low ≤ℤ (step *ℤ t)) × ((step *ℤ t) ≤ℤ high)) l result }
{
    span(first_reaching(step, low, l), last_within(step, high, l))
}

/// The first tick t of `0..=l` with `step*t` at or above the bound. Where there is none, the tick after `l`.
fn first_reaching(step: i64, bound: i64, l: i64) -> i64
    requires { IsWalk step l }
    ensures { Reaches step bound l result }
{
    if bound <= 0 {
        0
    } else if step * l < bound {
        l + 1
    } else {
        quotient(bound - 1, step) + 1
    }
}

/// The last tick t of `0..=l` with `step*t` at or below the bound. Where there is none, -1.
fn last_within(step: i64, bound: i64, l: i64) -> i64
    requires { IsWalk step l }
    ensures { StaysWithin step bound l result }
{
    if step * l <= bound {
        l
    } else if bound < 0 {
        -1
    } else {
        quotient(bound, step)
    }
}

/// The quotient of two numbers that are not negative, rounded down.
fn quotient(dividend: i64, divisor: i64) -> i64
    requires { IsFraction dividend divisor }
    ensures quotient { IsQuotient dividend divisor result }
    ensures not_above { result ≤ℤ dividend }
{
    dividend / divisor
}

/// The quotient of two numbers that are not negative, rounded down, where it is a tick before `l`.
fn tick_quotient(dividend: i128, divisor: i128, l: i64) -> i64
    requires { IsFractionBefore dividend divisor l }
    ensures quotient { IsQuotient dividend divisor result }
    ensures before { result <ℤ l }
{
    (dividend / divisor) as i64
}
