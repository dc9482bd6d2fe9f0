//! The nets over the table of a cycle: which rows each looks at, and all hits in the order of subjects.
#![tactic(auto)]

mod funnels;
mod ground;
mod hits;
pub mod laws;
mod movers;
mod nets;
mod pair;
mod regions;
mod rows;
mod volumes;

pub use hits::{Hits, hits_one};
pub use movers::{Mover, eligible};
pub use nets::Nets;

/// Want of memory.
pub type NoMemory = std::alloc::AllocError;
