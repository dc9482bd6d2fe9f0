//! Alert messages in this project's profile after ASTERIX category 004, and the blocks that they go out in.
#![tactic(auto)]

mod buffer;
pub mod laws;
pub mod message;
pub mod packer;

pub use alert_states::{
    ABOVE, BELOW, CURRENT_PROXIMITY, Event, HitData, LEFT, Net, RIGHT, Status, Subject, URGENT,
};
pub use message::{MESSAGE_ROOM, Message, write_event};
pub use packer::{CATEGORY, PACKED_ROOM, Packer};

/// Want of memory.
pub type NoMemory = std::alloc::AllocError;
