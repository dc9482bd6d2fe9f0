//! The program as one function over words, a world and sinks.
#![tactic(auto)]

mod named;
pub mod report;
mod request;
pub mod texts;
mod top;
pub mod words;
mod work;

pub use command_words::{Plan, USAGE, WordsFault, laws, read_words};
pub use feed_reader::{FeedCount, FeedCounts, Refusals, Report};
pub use report::report_text;
pub use texts::{FaultText, Refusal, tell};
pub use top::{replay_top, without_words};
