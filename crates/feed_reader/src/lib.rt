//! The reading of a feed: its bytes as records, what is counted of them, and how they end.
#![tactic(auto)]

pub mod content;
pub mod counts;
pub mod input;
pub mod laws;

pub use content::Input;
pub use counts::{FeedCount, FeedCounts, MOST_REFUSALS, Refusals, Report};
pub use input::{Gathered, MOST_USABLE, read_whole};
