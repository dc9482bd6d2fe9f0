//! Sources over the readers of the standard library.
ghost use Rattle.std.specs.Prelude.{◌≡◌, ◌≤◌, length, IfOk, if◌then◌else◌};
ghost use Rattle.std.specs.Result.{is_err};
ghost use Rattle.std.specs.Io.KnownBytes.{ReadConsumes};
ghost use Rattle.outside_io.specs.Faults.{HasCause};
ghost use Rattle.outside_io.specs.Calls.{counted};

use crate::calls::next_count;
use crate::source::{Failed, Source};
use std::io::Read;

/// A reader whose errors are counted. It tells the bytes that the reader has left, where the reader
/// tells them.
#[derive(Drop)]
pub struct ReaderSource<R: Read> {
    pub reader: R,
    pub faults: u64,
}

impl<R: Read> Source for ReaderSource<R> {
    ghost left = { λ s. R.remaining s.reader };

    ghost faults = { λ s. s.faults };

    fn read(&mut self, buf: &mut [u8]) -> Result<usize, Failed>
        ensures bound { IfOk result (λ n. n ≤ length buf.old) }
        ensures bytes { ReadConsumes (R.remaining self.old.reader) (R.remaining self.new.reader) result buf.new }
        ensures cause { HasCause self.old.faults self.new.faults result }
        ensures count { self.new.faults ≡ (if is_err result then counted self.old.faults else self.old.faults) }
    {
        match self.reader.read(buf) {
            Ok(count) => Ok(count),
            Err(_) => {
                self.faults = next_count(self.faults);
                Err(Failed)
            }
        }
    }
}
