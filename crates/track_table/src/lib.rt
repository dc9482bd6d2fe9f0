//! When the tracks of each feed were told, and the table of each cycle over all feeds.
#![tactic(auto)]

mod clock;
pub mod cycles;
mod latest;
pub mod laws;
mod order;
pub mod rows;
pub mod table;

pub use clock::{FeedClock, MOST_TRACKS};
// Who names a `Table` in a contract names the types of its fields.
#[doc(hidden)]
pub use latest::Latest;
pub use rows::Rows;
pub use table::{Frozen, Put, Table};

/// Want of memory.
pub type NoMemory = std::alloc::AllocError;
