//! When the tracks of a feed were told.
ghost use Rattle.std.specs.Prelude.{◌≡◌, ℤ, ◌≤ℤ◌, ◌<ℤ◌, ◌+ℤ◌, ◌-ℤ◌};
ghost use Rattle.track_table.specs.Stamps.{IsClock, clock_after, clock_at_start, stamp_of};
ghost use Rattle.track_table.specs.Times.{AreCycles, IsTime, at_near as near, half_day, window_of as window};

use std::marker::Model;
use track_motion::{Stamped, TICKS_PER_DAY, Track};

/// Ticks in a day.
const DAY: i64 = TICKS_PER_DAY as i64;

/// The most tracks of a feed whose clock is sure to keep to times that leave room to add in 64 bits, where
/// the cycles begin at a time of day.
pub const MOST_TRACKS: u64 = 1 << 39;

/// The clock of a feed: a record tells the time of day, and the clock which day it is of.
#[derive(Drop)]
pub struct FeedClock {
    start: i64,
    period: i64,
    latest: i64,
}

impl Model for FeedClock {
    ghost use Rattle.track_table.specs.Stamps.{Clock, IsClock};

    ghost Value = { Clock };

    ghost view = { λ c. record { start = c.start; period = c.period; latest = c.latest } };

    ghost invariant = { λ c. IsClock c.start c.period c.latest };
}

impl FeedClock {
    /// The clock of a feed before its first record. The cycles begin at `start` and are `period` long, in
    /// ticks of 1/128 s.
    pub fn new(start: i64, period: i64) -> FeedClock
        requires { AreCycles start period }
        ensures { result ≡ clock_at_start start period }
    {
        FeedClock {
            start,
            period,
            latest: start,
        }
    }

    /// When the feed's next track was told, and in which cycle. `place` is the number of the feed's usable
    /// records before it.
    pub fn stamp(&mut self, track: Track, feed: u32, place: u64) -> Stamped
        requires { IsTime (near self.old.latest track.time) }
        ensures stamp { result ≡ stamp_of self.old feed place track }
        ensures clock { self.new ≡ clock_after self.old track }
    {
        let at = at_near(self.latest, track.time);
        self.latest = self.latest.max(at);
        let window = window_of(self.start, self.period, self.latest);
        Stamped {
            track,
            feed,
            place,
            at,
            window,
        }
    }
}

/// The one time of a time of day that is from half a day before the present one on and less than half a
/// day after it.
fn at_near(present: i64, time: u32) -> i64
    requires { IsTime present }
    ensures at { result ≡ near present time }
    ensures low { (present -ℤ half_day) ≤ℤ result }
    ensures high { result <ℤ (present +ℤ half_day) }
{
    let from = present - DAY / 2;
    from + (i64::from(time) - from).rem_euclid(DAY)
}

/// The cycle that a time falls into.
fn window_of(start: i64, period: i64, time: i64) -> u64
    requires { IsClock start period time }
    ensures { result ≡ window start period time }
{
    (time - start) as u64 / period as u64
}
