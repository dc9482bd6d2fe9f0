//! How lengths and heights go together on a slope.

use site_types::{FEET_PER_LEVEL, HEIGHT_UNITS_PER_25_FEET, LENGTH_UNITS_PER_METRE};

/// A run: a rise and a side are told for each so many metres before the threshold.
pub const RUN_METRES: i64 = 10_000;

/// A run in length units: 5,120,000.
pub const RUN_LENGTH: i64 = RUN_METRES * LENGTH_UNITS_PER_METRE;

/// The fewest whole feet that are whole height units.
pub const STEP_FEET: i64 = 5;

/// These in height units: 6,144.
pub const STEP_HEIGHT: i64 = HEIGHT_UNITS_PER_25_FEET * STEP_FEET / FEET_PER_LEVEL as i64;

/// The greatest number that divides both a run in length units and a step in height units.
const COMMON: i64 = 2_048;

/// The two without it: 2,500 and 3.
pub const RUN_SHARE: i64 = RUN_LENGTH / COMMON;

pub const STEP_SHARE: i64 = STEP_HEIGHT / COMMON;

const _: () = prove!(RUN_SHARE * STEP_HEIGHT == STEP_SHARE * RUN_LENGTH);
