//! The numbers of a site, each said once more: each law is the contract of a function that does nothing.
ghost use Rattle.std.specs.Prelude.{◌≡◌, pos};
ghost use Rattle.site_types.specs.Limits.{from_to, minus};
ghost use Rattle.site_types.specs.declared.net.TheConstants.{STCA, MSAW, APW, APM};
ghost use Rattle.site_types.specs.declared.ranges.TheConstants.{ACTIVE_TIMES, BASE_FEET, CAPTURE_FEET, CODES, CONFIRM_CYCLES, CYCLE_SECONDS, DAY_SECONDS, DIRECTION, ELEVATION_FEET, FILE_NAME_LENGTH, FUNNEL_COUNT, HALF_METRES, HOLD_CYCLES, LAYER_FEET, LOOK_SECONDS, PLACE_METRES, POINTS, QNH_FEET, REACH_METRES, REGION_COUNT, RISE_FEET, SEPARATION_FEET, SEPARATION_METRES, SET_COUNT, SIDE_METRES, SPLIT_FEET, VOLUME_COUNT};
ghost use Rattle.site_types.specs.declared.units.TheConstants.{FEET_PER_LEVEL, HEIGHT_UNITS_PER_25_FEET, LENGTH_UNITS_PER_METRE, TICKS_PER_SECOND};

/// The units of a site, and the nets' places.
pub fn numbers()
    ensures ticks { TICKS_PER_SECOND ≡ pos 128 }
    ensures lengths { LENGTH_UNITS_PER_METRE ≡ pos 512 }
    ensures heights { HEIGHT_UNITS_PER_25_FEET ≡ pos 30720 }
    ensures levels { FEET_PER_LEVEL ≡ pos 25 }
    ensures stca { STCA ≡ 0 }
    ensures msaw { MSAW ≡ 1 }
    ensures apw { APW ≡ 2 }
    ensures apm { APM ≡ 3 }
{}

/// The ranges of the fields that stand alone, and of the confirmations.
pub fn numbers_of_general_ranges()
    ensures day { DAY_SECONDS ≡ from_to (pos 0) (pos 86399) }
    ensures cycle { CYCLE_SECONDS ≡ from_to (pos 1) (pos 60) }
    ensures qnh { QNH_FEET ≡ from_to (minus 5000) (pos 5000) }
    ensures excluded { CODES ≡ record { count = from_to (pos 0) (pos 256); highest = 4095 } }
    ensures file_name { FILE_NAME_LENGTH ≡ from_to (pos 1) (pos 255) }
    ensures confirm { CONFIRM_CYCLES ≡ from_to (pos 1) (pos 16) }
    ensures hold { HOLD_CYCLES ≡ from_to (pos 0) (pos 15) }
{}

/// The ranges of the parameter sets.
pub fn numbers_of_sets()
    ensures count { SET_COUNT ≡ from_to (pos 1) (pos 64) }
    ensures look { LOOK_SECONDS ≡ from_to (pos 0) (pos 120) }
    ensures horizontal { SEPARATION_METRES ≡ from_to (pos 1) (pos 100000) }
    ensures vertical { SEPARATION_FEET ≡ from_to (pos 25) (pos 10000) }
    ensures split { SPLIT_FEET ≡ from_to (pos 0) (pos 60000) }
{}

/// The ranges of regions and volumes.
pub fn numbers_of_airspace()
    ensures regions { REGION_COUNT ≡ from_to (pos 0) (pos 256) }
    ensures volumes { VOLUME_COUNT ≡ from_to (pos 0) (pos 1000) }
    ensures layer { LAYER_FEET ≡ from_to (minus 5000) (pos 100000) }
    ensures place { PLACE_METRES ≡ from_to (minus 4194303) (pos 4194303) }
    ensures points { POINTS ≡ record { count = from_to (pos 3) (pos 256); number = from_to (minus 4194303) (pos 4194303); units = 512 } }
    ensures times { ACTIVE_TIMES ≡ record { count = from_to (pos 0) (pos 48); number = from_to (pos 0) (pos 86400); units = 128 } }
{}

/// The ranges of approach funnels.
pub fn numbers_of_funnels()
    ensures count { FUNNEL_COUNT ≡ from_to (pos 0) (pos 64) }
    ensures direction { DIRECTION ≡ from_to (minus 10000) (pos 10000) }
    ensures elevation { ELEVATION_FEET ≡ from_to (minus 2000) (pos 20000) }
    ensures reach { REACH_METRES ≡ from_to (pos 1) (pos 100000) }
    ensures ceiling { CAPTURE_FEET ≡ from_to (minus 2000) (pos 60000) }
    ensures half { HALF_METRES ≡ from_to (pos 0) (pos 20000) }
    ensures side { SIDE_METRES ≡ from_to (pos 0) (pos 10000) }
    ensures base { BASE_FEET ≡ from_to (minus 5000) (pos 5000) }
    ensures rise { RISE_FEET ≡ from_to (pos 0) (pos 20000) }
{}
