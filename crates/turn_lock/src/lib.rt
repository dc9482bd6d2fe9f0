//! A lock of the project's own, which never waits, and whose seats know the whole history of what was given at it.
#![tactic(auto)]

pub mod laws;
mod rule;
mod turn;

pub use rule::Logged;
pub use turn::{Turn, TurnSeat};

/// There was no memory.
pub type NoMemory = std::alloc::AllocError;

/// The word that a take found, where the turn was held, or was taken or given in between.
#[derive(Clone, Copy, Debug, PartialEq, Eq)]
pub struct Busy(pub u64);
