//! The command words of `safetynets`: what they ask for, and what words without a plan are answered with.
#![tactic(auto)]

mod command;
pub mod laws;
pub mod plan;
mod values;
mod words;

pub use command::MOST_WORKERS;
pub use plan::{MOST_FEEDS, Name, Names, Plan, WordsFault};
pub use words::read_words;

/// What words without a plan are answered with.
pub const USAGE: &str =
    "usage: safetynets replay --site FILE FEED...\n       safetynets run --site FILE --workers N FEED...\n";
