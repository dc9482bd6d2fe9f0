//! What is reported of a pair that is hit.

/// The most that is told of the horizontal separation at tick 0, in half-metres.
pub const LARGEST_CHS: u32 = 0xff_ffff;

/// The most that is told of the other three separations.
pub const LARGEST_SEPARATION: u16 = 0xffff;

/// A hit of a pair of tracks. Ticks are of 1/128 s; horizontal separations in half-metres and vertical ones
/// in 25 ft, rounded down.
#[derive(Clone, Copy, Debug, PartialEq, Eq)]
pub struct StcaHit {
    /// The first tick of the conflict, 0 in current proximity.
    pub first: i64,
    /// The tick at which the two are horizontally closest.
    pub closest: i64,
    /// The horizontal separations at tick 0 and at the closest tick.
    pub chs: u32,
    pub mhs: u16,
    /// The vertical separations at the same two ticks.
    pub cvs: u16,
    pub mvs: u16,
    /// Current proximity holds.
    pub current: bool,
    /// Current proximity holds, or the conflict begins soon.
    pub urgent: bool,
}
