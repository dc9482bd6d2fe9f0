//! What bytes are written to.
ghost use Rattle.std.specs.Prelude.{◌≡◌, ◌≤◌, List, ℕ, Option, length, IfOk};
ghost use Rattle.std.specs.Io.KnownBytes.{WriteAppends};
ghost use Rattle.outside_io.specs.Bytes.{AppendsWhole, TakesSome};
ghost use Rattle.outside_io.specs.Faults.{HasCause};

use crate::source::Failed;

/// A writer that counts its faults.
pub trait Sink {
    /// The bytes that were taken, where the sink tells them.
    ghost taken: { Self → Option (List ℕ) };

    /// How often a write has failed. It never falls.
    ghost faults: { Self → ℕ };

    /// Takes some of the piece's bytes, from the first on, and answers how many. A sink that takes
    /// none of a piece that isn't empty has failed.
    fn write(&mut self, piece: &[u8]) -> Result<usize, Failed>
        ensures bound { IfOk result (λ n. n ≤ length piece.now) }
        ensures bytes { WriteAppends (taken self.old) (taken self.new) result piece.now }
        ensures some { TakesSome result piece.now }
        ensures cause { HasCause (faults self.old) (faults self.new) result };
}

/// The sinks of a run: the alert bytes, and the report or a fault text.
#[derive(Drop)]
pub struct Sinks<K> {
    pub out: K,
    pub report: K,
}

/// Writes all of the bytes, in as many pieces as the sink takes them in. A sink that fails has taken
/// a prefix of them.
pub fn write_whole<K: Sink>(sink: &mut K, bytes: &[u8]) -> Result<(), Failed>
    ensures bytes { AppendsWhole (K.taken sink.old) (K.taken sink.new) result bytes.now }
    ensures cause { HasCause (K.faults sink.old) (K.faults sink.new) result }
{
    let mut done = 0;
    while done < bytes.len() {
        let count = sink.write(&bytes[done..])?;
        done += count;
    }
    Ok(())
}
