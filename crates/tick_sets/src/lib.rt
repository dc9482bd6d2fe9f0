// At which ticks of a look-ahead an inequality holds, in whole numbers. A tick is 1/128 s.
#![tactic(auto)]

ghost use Rattle.std.specs.Prelude.{◌≡◌};
ghost use Rattle.tick_sets.specs.Searches.{hit_from};

mod inequality;
pub mod laws;
mod parity;
mod root;
mod spans;

pub use inequality::{least_tick, linear, quadratic};
pub use parity::odd_first;
pub use root::isqrt;
pub use spans::meet;

/// A set of ticks without gaps: none, or each from `first` to `last`, both included.
/// What this crate makes is proper: a `Span` has its `first` at or before its `last`.
#[derive(Clone, Copy, Debug, PartialEq, Eq)]
pub enum Ticks {
    Empty,
    Span { first: i64, last: i64 },
}

/// What the nets for terrain and for airspace volumes (MSAW, APW) report of a track that they warn
/// of: the first tick of the danger, and whether the alert is urgent.
#[derive(Clone, Copy, Debug, PartialEq, Eq)]
pub struct TickHit {
    pub first: i64,
    pub urgent: bool,
}

impl TickHit {
    /// The hit from this tick on: urgent where that is at most the limit.
    pub fn from_tick(first: i64, limit: i64) -> TickHit
        ensures { result ≡ hit_from limit first }
    {
        TickHit {
            first,
            urgent: first <= limit,
        }
    }
}
