//! System tracks, when they were told, how they rank, and where they are after a cycle's time.
#![tactic(auto)]

pub mod laws;
pub mod motion;
pub mod rank;
pub mod track;

pub use motion::{Motion, motion_at};
pub use rank::{Stamped, rank_less};
pub use track::{TICKS_PER_DAY, Track, TrackKey};
