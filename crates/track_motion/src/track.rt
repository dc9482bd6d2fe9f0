//! What a record says of a system track.

/// Ticks of 1/128 s in a day.
pub const TICKS_PER_DAY: u32 = 11_059_200;

/// What names a track: the system that keeps it, and its number there. Keys are ordered by these fields.
#[derive(Clone, Copy, Debug, PartialEq, Eq, PartialOrd, Ord, Hash)]
pub struct TrackKey {
    /// System area code.
    pub sac: u8,
    /// System identification code.
    pub sic: u8,
    /// Track number.
    pub number: u16,
}

/// A system track as one record tells it.
#[derive(Clone, Copy, Debug, PartialEq, Eq)]
pub struct Track {
    pub key: TrackKey,
    /// Time of day in 1/128 s, below a day.
    pub time: u32,
    /// Position in the system plane, in 0.5 m.
    pub x: i32,
    pub y: i32,
    /// Velocity in 0.25 m/s.
    pub vx: i16,
    pub vy: i16,
    /// Flight level in 25 ft.
    pub level: Option<i32>,
    /// Altitude above mean sea level in 25 ft.
    pub altitude: Option<i32>,
    /// Rate of climb or descent in 6.25 ft/min, climb positive.
    pub rate: i16,
    /// Mode 3/A code, 12 bits.
    pub code: Option<u16>,
    pub tentative: bool,
    pub simulated: bool,
    /// The last message for the track.
    pub ended: bool,
}
