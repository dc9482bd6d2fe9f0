//! The command words, and the plan that they give.

pub use command_words::{MOST_FEEDS, MOST_WORKERS, Name, Names, Plan, WordsFault, read_words};
