//! What a site sets, its units, and the ranges of its values.
#![tactic(auto)]

mod airspace;
mod file_name;
mod funnel;
pub mod laws;
mod limits;
mod net;
mod pair_list;
mod ranges;
mod site;
mod units;

pub use airspace::{Region, Regions, Volume, Volumes};
pub use file_name::FileName;
pub use funnel::{Funnel, Funnels};
pub use limits::{Limits, ListLimits, PairLimits};
pub use net::{APM, APW, MSAW, Net, STCA};
pub use pair_list::Pairs;
pub use ranges::{
    ACTIVE_TIMES, BASE_FEET, CAPTURE_FEET, CODES, CONFIRM_CYCLES, CYCLE_SECONDS, DAY_SECONDS,
    DIRECTION, ELEVATION_FEET, FILE_NAME_LENGTH, FUNNEL_COUNT, HALF_METRES, HOLD_CYCLES,
    LAYER_FEET, LOOK_SECONDS, PLACE_METRES, POINTS, QNH_FEET, REACH_METRES, REGION_COUNT,
    RISE_FEET, SEPARATION_FEET, SEPARATION_METRES, SET_COUNT, SIDE_METRES, SPLIT_FEET,
    VOLUME_COUNT,
};
pub use site::{Codes, Confirm, Set, Sets, Site};
pub use units::{
    FEET_PER_LEVEL, HEIGHT_UNITS_PER_25_FEET, LENGTH_UNITS_PER_METRE, TICKS_PER_SECOND,
};
