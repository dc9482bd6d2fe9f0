//! Where a track is at the ticks after a cycle's time.
ghost use Rattle.std.specs.Prelude.{◌≡◌, ◌↔◌, ◌≤◌, ◌^◌, ◌*◌, ◌+◌, pos, All, IfSome, IsTrue, is_some, unsigned_abs};
ghost use Rattle.std.specs.Option.{option_map};
ghost use Rattle.track_motion.specs.Motions.{CanMove, InRange, motion_at as told, moved_on};
ghost use Rattle.track_motion.specs.Tracks.{IsHeight};

use crate::rank::Stamped;

/// Length units of 1/512 m in half a metre, in which a position is told.
pub const LENGTH_UNITS_PER_HALF_METRE: u16 = 256;

/// Height units in 25 ft, in which a level and an altitude are told.
pub const HEIGHT_UNITS_PER_25_FEET: u16 = 30_720;

/// How long ago a track may have been told that is moved on, in ticks of 1/128 s: 60 s.
pub const LONGEST_AGE: u16 = 7_680;

/// How far from 0 a position, a level and an altitude may be, in the units of a motion.
pub const FARTHEST: u64 = 1 << 32;

/// How far from 0 a velocity and a rate may be, in these units per tick.
pub const FASTEST: u64 = 1 << 15;

/// A position in 1/512 m and a velocity in 1/512 m per tick of 1/128 s; a level and an altitude in
/// 1/30,720 of 25 ft and their rate in these per tick. All hold at tick 0.
#[derive(Clone, Copy, Debug, PartialEq, Eq)]
pub struct Motion {
    pub x: i64,
    pub y: i64,
    pub vx: i64,
    pub vy: i64,
    pub z: i64,
    pub alt: i64,
    pub vz: i64,
}

impl Motion {
    /// Whether each value is as near to 0 as that of any track that can be moved on.
    pub fn in_range(&self) -> bool
        ensures { IsTrue result ↔ InRange self.now }
    {
        let places = [self.x, self.y, self.z, self.alt];
        let speeds = [self.vx, self.vy, self.vz];
        are_within(&places, FARTHEST) && are_within(&speeds, FASTEST)
    }
}

/// The motion of a track at a time, in ticks of 1/128 s. None where the track has no level.
pub fn motion_at(s: &Stamped, time: i64) -> Option<Motion>
    requires { CanMove s.now time }
    ensures motion { result ≡ told s.now time }
    ensures level { is_some result ≡ is_some s.now.track.level }
    ensures range { IfSome result InRange }
{
    let track = &s.track;
    let age = (time - s.at) as u16;
    let z = height(track.level, track.rate, age)?;
    let alt = height(track.altitude, track.rate, age)?;
    Some(Motion {
        x: moved(LENGTH_UNITS_PER_HALF_METRE, track.x, track.vx, age),
        y: moved(LENGTH_UNITS_PER_HALF_METRE, track.y, track.vy, age),
        vx: i64::from(track.vx),
        vy: i64::from(track.vy),
        z,
        alt,
        vz: i64::from(track.rate),
    })
}

/// A level or an altitude, where one was told, after some ticks at a rate.
fn height(told: Option<i32>, rate: i16, age: u16) -> Option<i64>
    ensures height { result ≡ option_map (λ z. moved_on HEIGHT_UNITS_PER_25_FEET z rate (pos age)) told }
    ensures bound { IfSome told IsHeight → IfSome result (λ h. unsigned_abs h ≤ FARTHEST) }
{
    Some(moved(HEIGHT_UNITS_PER_25_FEET, told?, rate, age))
}

/// A value that was told in so many units, after some ticks at a speed.
fn moved(units: u16, value: i32, speed: i16, age: u16) -> i64
    ensures place { result ≡ moved_on units value speed (pos age) }
    ensures bound { unsigned_abs result ≤ units * unsigned_abs value + 2 ^ 31 }
{
    i64::from(units) * i64::from(value) + i64::from(speed) * i64::from(age)
}

/// Whether each value is at most so far from 0.
fn are_within(values: &[i64], limit: u64) -> bool
    ensures { IsTrue result ↔ All (λ value. unsigned_abs value ≤ limit) values.now }
{
    values.iter().all(|value| value.unsigned_abs() <= limit)
}
