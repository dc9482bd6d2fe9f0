//! The real outside: files by their paths, and the two standard streams.
//!
//! They tell no bytes. Each failure of the system is counted; want of memory isn't one.
ghost use Rattle.std.specs.Prelude.{◌≡◌, ◌≤◌, ◌<◌, ◌-◌, ◌↔◌, None, IsTrue, IfOk, IsErrOf, nat_lt, if◌then◌else◌};
ghost use Rattle.std.specs.IoError.{error_kind};
ghost use Rattle.outside_io.specs.Calls.{counted};
ghost use Rattle.outside_io.specs.Faults.{Rose};
ghost use Rattle.outside_io.specs.Opened.{CountsOpened};

use crate::calls::next_count;
use crate::reader::ReaderSource;
use crate::world::{OpenFault, World};
use crate::writer::WriterSink;
use std::alloc::Global;
use std::fs::File;
use std::io;
use std::io::{ErrorKind, Write};
use std::rt::{Stderr, Stdout};

/// Whether the system was short of memory.
pub fn is_want_of_memory(error: &io::Error) -> bool
    ensures { IsTrue result ↔ (error_kind error.now ≡ ErrorKind.OutOfMemory) }
{
    error.kind() == ErrorKind::OutOfMemory
}

/// A file that is read from its first byte on.
pub type FileSource = ReaderSource<File>;

/// One of the standard streams.
#[derive(Clone, Copy)]
pub enum Stream {
    Output(Stdout),
    Error(Stderr),
}

impl Write for Stream {
    fn write(&mut self, buf: &[u8]) -> io::Result<usize> {
        match self {
            Stream::Output(output) => output.write(buf),
            Stream::Error(error) => error.write(buf),
        }
    }

    fn flush(&mut self) -> io::Result<()> {
        match self {
            Stream::Output(output) => output.flush(),
            Stream::Error(error) => error.flush(),
        }
    }
}

/// A standard stream that is written to. In the program's `Sinks` the alert bytes go to the output,
/// and the report to the error stream.
pub type FileSink = WriterSink<Stream>;

impl WriterSink<Stream> {
    /// Writes to standard output.
    pub fn output(rt: &HostRuntime) -> FileSink
        ensures stream { (output : _) × (result.writer ≡ Stream.Output output) }
        ensures faults { result.faults ≡ 0 }
    {
        WriterSink {
            writer: Stream::Output(rt.stdout()),
            faults: 0,
        }
    }

    /// Writes to standard error.
    pub fn error(rt: &HostRuntime) -> FileSink
        ensures stream { (error : _) × (result.writer ≡ Stream.Error error) }
        ensures faults { result.faults ≡ 0 }
    {
        WriterSink {
            writer: Stream::Error(rt.stderr()),
            faults: 0,
        }
    }
}

/// The files of the system, by their paths.
#[derive(Drop)]
pub struct FileWorld {
    pub rt: HostRuntime,
    pub opened: u64,
    pub faults: u64,
}

impl FileWorld {
    /// The files that the process can reach. None of them is open.
    pub fn new(rt: HostRuntime) -> FileWorld
        ensures opened { result.opened ≡ 0 }
        ensures faults { result.faults ≡ 0 }
    {
        FileWorld {
            rt,
            opened: 0,
            faults: 0,
        }
    }
}

impl World for FileWorld {
    type Feed = FileSource;

    ghost files = { λ _. None };

    ghost opened = { λ w. w.opened };

    ghost faults = { λ w. w.faults };

    /// A path that isn't there is a failure, since this world doesn't tell its names. A count of open
    /// files that stands at its last value is want of memory.
    fn open(&mut self, _alloc: Global, name: &str) -> Result<FileSource, OpenFault>
        ensures opened { CountsOpened self.old.opened self.new.opened result }
        ensures fresh { IfOk result (λ feed. feed.faults ≡ 0) }
        ensures no_such { IsErrOf result OpenFault.NoSuch → ⊥ }
        ensures failed { IsErrOf result OpenFault.Failed → Rose self.old.faults self.new.faults }
        ensures later { self.old.faults ≤ self.new.faults }
        ensures count { IsErrOf result OpenFault.Failed → self.new.faults ≡ counted self.old.faults }
        ensures quiet { (IsErrOf result OpenFault.Failed → ⊥) → self.new.faults ≡ self.old.faults }
    {
        match File::open(&self.rt, name) {
            Ok(_) if self.opened == u64::MAX => Err(OpenFault::NoMemory),
            Ok(reader) => {
                self.opened += 1;
                Ok(ReaderSource { reader, faults: 0 })
            }
            Err(error) if is_want_of_memory(&error) => Err(OpenFault::NoMemory),
            Err(_) => {
                self.faults = next_count(self.faults);
                Err(OpenFault::Failed)
            }
        }
    }

    fn close(&mut self, feed: FileSource)
        ensures opened { self.new.opened ≡ self.old.opened - 1 }
        ensures quiet { feed.faults ≡ 0 → self.new.faults ≡ self.old.faults }
        ensures failed { 0 < feed.faults → Rose self.old.faults self.new.faults }
        ensures later { self.old.faults ≤ self.new.faults }
        ensures count { self.new.faults ≡ (if nat_lt 0 feed.faults then counted self.old.faults else self.old.faults) }
    {
        self.opened = self.opened.saturating_sub(1);
        if feed.faults > 0 {
            self.faults = next_count(self.faults);
        }
    }
}
