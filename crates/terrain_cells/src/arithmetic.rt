//! Quotients, and the values of a line.
ghost use Rattle.std.specs.Prelude.{◌≡◌, ◌≤ℤ◌};
ghost use Rattle.tick_sets.specs.Inequalities.{IsLook, line_at};
ghost use Rattle.tick_sets.specs.Steps.{IsFraction, IsQuotient};
ghost use Rattle.terrain_cells.specs.Axes.{IsCourse, IsPlace};

/// The quotient of two numbers that are not negative, rounded down.
pub fn quotient(dividend: i64, divisor: i64) -> i64
    requires { IsFraction dividend divisor }
    ensures quotient { IsQuotient dividend divisor result }
    ensures not_above { result ≤ℤ dividend }
{
    dividend / divisor
}

/// Where a place, or an altitude, is at a tick.
pub fn value_at(start: i64, speed: i64, tick: i64) -> i64
    requires course { IsCourse start speed }
    requires tick { IsLook tick }
    ensures value { result ≡ line_at speed start tick }
    ensures near { IsPlace result }
{
    start + speed * tick
}
