//! Whether a place is inside a polygon, and the first tick at which a moving track is, in whole numbers.
#![tactic(auto)]

mod edge;
mod first;
pub mod laws;
mod place;

pub use first::inside_ticks;
pub use place::inside;

/// Want of memory.
pub type NoMemory = std::alloc::AllocError;
