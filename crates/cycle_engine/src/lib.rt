//! A cycle of the safety nets: from its table to its alert bytes.
#![tactic(auto)]

mod engine;
mod messages;

pub use engine::{CycleDone, CycleFault, Engine};

/// Want of memory.
pub type NoMemory = std::alloc::AllocError;
