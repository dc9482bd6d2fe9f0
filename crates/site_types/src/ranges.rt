//! The ranges of the fields.

use crate::limits::{Limits, ListLimits, PairLimits};
use crate::units::{LENGTH_UNITS_PER_METRE, TICKS_PER_SECOND};

/// A second of the day.
pub const DAY_SECONDS: Limits = Limits {
    low: 0,
    high: 86_399,
};

/// How long a cycle lasts, and how long ago a row's stamp may be, in seconds.
pub const CYCLE_SECONDS: Limits = Limits { low: 1, high: 60 };

/// The QNH correction, in feet.
pub const QNH_FEET: Limits = Limits {
    low: -5000,
    high: 5000,
};

/// How many Mode 3/A codes there may be, and the greatest of them.
pub const CODES: ListLimits = ListLimits {
    count: Limits { low: 0, high: 256 },
    highest: 4095,
};

/// How many octets the name of a file has.
pub const FILE_NAME_LENGTH: Limits = Limits { low: 1, high: 255 };

/// The cycles over which hits are counted, and those that an alert is held.
pub const CONFIRM_CYCLES: Limits = Limits { low: 1, high: 16 };

pub const HOLD_CYCLES: Limits = Limits { low: 0, high: 15 };

/// How many parameter sets there may be.
pub const SET_COUNT: Limits = Limits { low: 1, high: 64 };

/// How far a net looks ahead, and up to which first tick a hit is urgent, in seconds.
pub const LOOK_SECONDS: Limits = Limits { low: 0, high: 120 };

/// A horizontal separation, in metres.
pub const SEPARATION_METRES: Limits = Limits {
    low: 1,
    high: 100_000,
};

/// A vertical separation, in feet.
pub const SEPARATION_FEET: Limits = Limits {
    low: 25,
    high: 10_000,
};

/// The level up to which the lower vertical limits hold, in feet.
pub const SPLIT_FEET: Limits = Limits {
    low: 0,
    high: 60_000,
};

/// How many regions there may be, and how many volumes.
pub const REGION_COUNT: Limits = Limits { low: 0, high: 256 };

pub const VOLUME_COUNT: Limits = Limits { low: 0, high: 1000 };

/// The floor and the ceiling of a region or a volume, in feet.
pub const LAYER_FEET: Limits = Limits {
    low: -5000,
    high: 100_000,
};

/// A place on the system plane, along an axis, in metres.
pub const PLACE_METRES: Limits = Limits {
    low: -4_194_303,
    high: 4_194_303,
};

/// The points of a polygon on the system plane, in metres.
pub const POINTS: PairLimits = PairLimits {
    count: Limits { low: 3, high: 256 },
    number: PLACE_METRES,
    units: LENGTH_UNITS_PER_METRE as u16,
};

/// From when to when a volume is active, in seconds of the day. The last is the day's end.
pub const ACTIVE_TIMES: PairLimits = PairLimits {
    count: Limits { low: 0, high: 48 },
    number: Limits {
        low: 0,
        high: 86_400,
    },
    units: TICKS_PER_SECOND as u16,
};

/// How many funnels there may be.
pub const FUNNEL_COUNT: Limits = Limits { low: 0, high: 64 };

/// A part of the landing direction.
pub const DIRECTION: Limits = Limits {
    low: -10_000,
    high: 10_000,
};

/// The altitude of a threshold, in feet.
pub const ELEVATION_FEET: Limits = Limits {
    low: -2000,
    high: 20_000,
};

/// How far before the threshold a funnel begins, in metres.
pub const REACH_METRES: Limits = Limits {
    low: 1,
    high: 100_000,
};

/// The greatest altitude of a captured track, in feet.
pub const CAPTURE_FEET: Limits = Limits {
    low: -2000,
    high: 60_000,
};

/// Half the width of a funnel at the threshold, in metres, and how much wider it is for each 10,000 m before it.
pub const HALF_METRES: Limits = Limits {
    low: 0,
    high: 20_000,
};

pub const SIDE_METRES: Limits = Limits {
    low: 0,
    high: 10_000,
};

/// A slope's height above the elevation at the threshold, in feet, and how much higher it is for each 10,000 m before
/// it.
pub const BASE_FEET: Limits = Limits {
    low: -5000,
    high: 5000,
};

pub const RISE_FEET: Limits = Limits {
    low: 0,
    high: 20_000,
};
