//! Which alerts are on over the cycles, and what each cycle says of them.
#![tactic(auto)]

pub mod book;
mod entry;
pub mod event;
pub mod laws;
mod merge;

pub use book::Book;
pub use event::{
    ABOVE, ALERT_NUMBERS, BELOW, CURRENT_PROXIMITY, Event, Hit, HitData, LEFT, RIGHT, Status,
    Subject, URGENT,
};
pub use site_types::Net;

/// Want of memory.
pub type NoMemory = std::alloc::AllocError;
