//! Numbers that change evenly each tick, and limits that widen evenly with a distance.
ghost use Rattle.std.specs.Prelude.{◌≡◌, ◌↔◌, IsTrue, pos, ◌-ℤ◌, ◌*ℤ◌, ◌<ℤ◌, neg_ℤ};
ghost use Rattle.tick_sets.specs.Inequalities.{IsLook, line_at};
ghost use Rattle.tick_sets.specs.Ticks.{AreTicksWhere};
ghost use Rattle.approach_funnel.specs.Lines.{IsBeyond, IsBeyondAt, IsDrift, IsLimit, IsNear};

use tick_sets::{Ticks, linear};

/// A number that changes by the same each tick.
#[derive(Clone, Copy)]
pub struct Line {
    /// What it is at tick 0.
    pub start: i64,
    pub change: i64,
    ghost range: { IsDrift start change },
}

impl Line {
    /// The number with the other sign.
    pub fn negated(self) -> Line
        ensures start { result.start ≡ neg_ℤ self.start }
        ensures change { result.change ≡ neg_ℤ self.change }
    {
        Line {
            start: -self.start,
            change: -self.change,
        }
    }

    /// The ticks of `0..=look` at which it is above 0.
    pub fn ticks_above(self, look: i64) -> Ticks
        requires { IsLook look }
        ensures { AreTicksWhere (λ t. pos 0 <ℤ line_at self.change self.start t) look result }
    {
        linear(i128::from(self.change), i128::from(self.start - 1), look)
    }
}

/// A limit: a number is beyond it at a distance where `weight` times the number is more than `base` and `share` times
/// the distance.
#[derive(Clone, Copy)]
pub struct Limit {
    pub weight: i64,
    pub share: i64,
    pub base: i64,
    ghost range: { IsLimit weight share base },
}

impl Limit {
    /// Whether a number is beyond the limit at a distance.
    pub fn is_beyond(self, distance: i64, number: i64) -> bool
        requires distance { IsNear distance }
        requires number { IsNear number }
        ensures { IsTrue result ↔ IsBeyond self.weight self.share self.base distance number }
    {
        i128::from(self.base) < self.balance(distance, number)
    }

    /// The ticks of `0..=look` at which a number is beyond the limit.
    pub fn ticks_beyond(self, distance: Line, number: Line, look: i64) -> Ticks
        requires { IsLook look }
        ensures { AreTicksWhere (IsBeyondAt self.weight self.share self.base distance.start distance.change number.start number.change) look result }
    {
        let change = self.balance(distance.change, number.change);
        let start = self.balance(distance.start, number.start) - i128::from(self.base);
        linear(change, start - 1, look)
    }

    /// What a number weighs, less the share of a distance.
    fn balance(self, distance: i64, number: i64) -> i128
        requires distance { IsNear distance }
        requires number { IsNear number }
        ensures { result ≡ self.weight *ℤ number -ℤ self.share *ℤ distance }
    {
        i128::from(self.weight) * i128::from(number) - i128::from(self.share) * i128::from(distance)
    }
}
