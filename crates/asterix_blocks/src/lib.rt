//! ASTERIX data blocks, cut from a feed that comes in any pieces.
#![tactic(auto)]

mod blocks;
mod cutting;
mod feeds;
mod framing;
pub mod laws;

pub use blocks::{Block, Body, End};
pub use cutting::Cutter;
pub use feeds::{Framed, frame, frame_pieces, take_blocks};

/// Want of memory.
pub type NoMemory = std::alloc::AllocError;

/// The octets that a feed has at most. What comes behind them is no part of it.
pub const FEED_ROOM: u64 = 1 << 40;
