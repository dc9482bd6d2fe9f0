//! Sinks over the writers of the standard library.
ghost use Rattle.std.specs.Prelude.{◌≡◌, ◌≤◌, length, IfOk, if◌then◌else◌};
ghost use Rattle.std.specs.Result.{is_err};
ghost use Rattle.std.specs.Io.KnownBytes.{WriteAppends};
ghost use Rattle.outside_io.specs.Bytes.{TakesSome};
ghost use Rattle.outside_io.specs.Faults.{HasCause};
ghost use Rattle.outside_io.specs.Calls.{counted};

use crate::calls::next_count;
use crate::sink::Sink;
use crate::source::Failed;
use std::io::Write;

/// A writer whose errors are counted. It tells the bytes that the writer holds, where the writer
/// tells them.
#[derive(Drop)]
pub struct WriterSink<W: Write> {
    pub writer: W,
    pub faults: u64,
}

impl<W: Write> Sink for WriterSink<W> {
    ghost taken = { λ s. W.contents s.writer };

    ghost faults = { λ s. s.faults };

    fn write(&mut self, piece: &[u8]) -> Result<usize, Failed>
        ensures bound { IfOk result (λ n. n ≤ length piece.now) }
        ensures bytes { WriteAppends (W.contents self.old.writer) (W.contents self.new.writer) result piece.now }
        ensures some { TakesSome result piece.now }
        ensures cause { HasCause self.old.faults self.new.faults result }
        ensures count { self.new.faults ≡ (if is_err result then counted self.old.faults else self.old.faults) }
    {
        match self.writer.write(piece) {
            Ok(count) if count > 0 || piece.is_empty() => Ok(count),
            _ => {
                self.faults = next_count(self.faults);
                Err(Failed)
            }
        }
    }
}
