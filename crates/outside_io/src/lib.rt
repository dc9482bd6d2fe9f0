//! Where bytes come from and go to: sources, sinks and the world that opens names.
//!
//! Each trait says what its objects hold, where they tell it, and counts their faults. Code that is
//! generic over a trait can't raise a count by itself, so a clause "this answer only where the count
//! rose" says that the answer has a cause outside the program, and "`Ok` only where it stayed" that
//! no fault was passed over.
#![tactic(auto)]

mod calls;
pub mod files;
pub mod memory;
pub mod reader;
pub mod sink;
pub mod source;
pub mod steps;
pub mod text;
pub mod world;
pub mod writer;

pub use files::{FileSink, FileSource, FileWorld, is_want_of_memory};
pub use memory::{MemFile, MemSink, MemSource, MemWorld};
pub use reader::ReaderSource;
pub use sink::{Sink, Sinks, write_whole};
pub use source::{Failed, Source};
pub use steps::Steps;
pub use text::{Unread, read_text};
pub use world::{OpenFault, World};
pub use writer::WriterSink;

/// Want of memory.
pub type NoMemory = std::alloc::AllocError;
