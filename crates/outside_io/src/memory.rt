//! Sources, sinks and a world in memory, whose calls fail where a list says so.
//!
//! They tell their bytes. Calls are numbered from 0, and a count that stands at its last value stays.
pub mod sink;
pub mod source;
pub mod world;

pub use sink::MemSink;
pub use source::MemSource;
pub use world::{MemFile, MemWorld};
