//! The units of a site.

/// A site's unit of time.
pub const TICKS_PER_SECOND: i64 = 128;

/// A site's unit of length.
pub const LENGTH_UNITS_PER_METRE: i64 = 512;

/// A site's unit of height.
pub const HEIGHT_UNITS_PER_25_FEET: i64 = 30_720;

/// Heights stand in steps of so many feet.
pub const FEET_PER_LEVEL: i32 = 25;
