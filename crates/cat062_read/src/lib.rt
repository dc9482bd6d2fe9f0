//! ASTERIX category 062: records of system tracks, and the tracks that they tell of.
#![tactic(auto)]

mod body;
mod item;
pub mod laws;
mod reading;
pub mod record;
pub mod table;
pub mod track;

pub use body::{BlockRead, LAST_PLACE, NoMemory, Refused, add_records, read_block};
pub use reading::read_record;
pub use record::Raw062;
pub use table::{CAT062, CATEGORY, SUBS062, tables_hold};
pub use track::{TICKS_PER_DAY, Track, TrackKey, is_usable, track_of};
