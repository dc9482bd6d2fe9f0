//! When an airspace volume is active.
ghost use Rattle.std.specs.Prelude.{◌≡◌, ℤ, pos, ◌≤ℤ◌};
ghost use Rattle.airspace_volumes.specs.Active.{holds_some, holds_time, is_active, time_of_day as day_time};

use site_types::Volume;
use track_motion::TICKS_PER_DAY;

/// Whether the volume is active at a time, which counts on over midnight, in ticks of 1/128 s.
pub fn active(v: &Volume, time: i64) -> bool
    requires { pos 0 ≤ℤ time }
    ensures { result ≡ is_active v.now time }
{
    match &v.active {
        None => true,
        Some(times) => hold_some(times.as_slice(), time_of_day(time)),
    }
}

/// Ticks since midnight.
fn time_of_day(time: i64) -> i64
    requires { pos 0 ≤ℤ time }
    ensures { result ≡ day_time time }
{
    time % i64::from(TICKS_PER_DAY)
}

/// Some of the pairs hold the time of day.
fn hold_some(times: &[(i64, i64)], m: i64) -> bool
    ensures { result ≡ holds_some times.now m }
{
    times.iter().any(|(from, to)| holds(*from, *to, m))
}

/// A pair holds the time of day: over midnight where it ends before it begins.
fn holds(from: i64, to: i64, m: i64) -> bool
    ensures { result ≡ holds_time (from, to) m }
{
    if to < from {
        from <= m || m < to
    } else {
        from <= m && m < to
    }
}
