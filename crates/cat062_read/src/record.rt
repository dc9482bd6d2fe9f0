//! The contents of a record.

/// The items of a record that the profile uses, as they stand in it (ASTERIX part 9).
#[derive(Clone, Copy, Debug, PartialEq, Eq)]
pub struct Raw062 {
    /// 010: the system area code and the system identification code.
    pub source: Option<(u8, u8)>,
    /// 040: the track number.
    pub number: Option<u16>,
    /// 070: the time of track information, in 1/128 s, as written.
    pub time: Option<u32>,
    /// 100: the calculated position in the system plane, X and Y in 0.5 m.
    pub xy: Option<(i32, i32)>,
    /// 105: latitude and longitude in WGS-84, in 180/2^25 degrees.
    pub wgs: Option<(i32, i32)>,
    /// 185: the velocity Vx, Vy in 0.25 m/s.
    pub speed: Option<(i16, i16)>,
    /// 210: the acceleration Ax, Ay in 0.25 m/s^2.
    pub accel: Option<(i8, i8)>,
    /// 220: the rate of climb or descent in 6.25 ft/min, climb positive.
    pub rate: Option<i16>,
    /// 136: the measured flight level in 25 ft.
    pub flight_level: Option<i16>,
    /// 135: whether QNH correction is applied, and the barometric altitude in 25 ft.
    pub baro: Option<(bool, i16)>,
    /// 060: the Mode 3/A code, 12 bits.
    pub code: Option<u16>,
    /// 080: the track is tentative.
    pub tentative: bool,
    /// 080: the track is simulated.
    pub simulated: bool,
    /// 080: this is the last message for the track.
    pub ended: bool,
}
