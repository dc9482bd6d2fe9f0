//! A sink in memory.
ghost use Rattle.std.specs.Prelude.{◌≡◌, ◌≤◌, ◌↔◌, [], length, vec_capacity, Some, IfOk, if◌then◌else◌};
ghost use Rattle.std.specs.Result.{is_err, IsErr};
ghost use Rattle.std.specs.Io.KnownBytes.{WriteAppends};
ghost use Rattle.outside_io.specs.Bytes.{TakesSome};
ghost use Rattle.outside_io.specs.Faults.{HasCause};
ghost use Rattle.outside_io.specs.Calls.{counted, at_most, WriteFails};

use crate::NoMemory;
use crate::calls::{bounded, lists, next_count};
use crate::sink::Sink;
use crate::source::Failed;
use std::alloc::Global;

/// Bytes that were written, in room that `new` has reserved, so that no write needs memory.
#[derive(Drop)]
pub struct MemSink {
    pub taken: Vec<u8>,
    /// At most how many bytes each call takes. Calls past the list take all.
    pub takes: Vec<u32>,
    /// The numbers of the calls that fail.
    pub fail: Vec<u64>,
    /// How many bytes it takes in all.
    pub room: usize,
    pub calls: u64,
    pub faults: u64,
    ghost reserved: { room ≤ vec_capacity taken },
}

impl MemSink {
    /// A sink that has taken nothing.
    pub fn new(
        alloc: Global,
        room: usize,
        takes: Vec<u32>,
        fail: Vec<u64>,
    ) -> Result<MemSink, NoMemory>
        ensures taken { IfOk result (λ sink. sink.taken.items ≡ []) }
        ensures calls { IfOk result (λ sink. sink.calls ≡ 0) }
        ensures faults { IfOk result (λ sink. sink.faults ≡ 0) }
        ensures room { IfOk result (λ sink. sink.room ≡ room) }
        ensures takes { IfOk result (λ sink. sink.takes ≡ takes) }
        ensures fail { IfOk result (λ sink. sink.fail ≡ fail) }
    {
        let taken = Vec::with_capacity(alloc, room)?;
        Ok(MemSink {
            taken,
            takes,
            fail,
            room,
            calls: 0,
            faults: 0,
        })
    }
}

impl Sink for MemSink {
    ghost taken = { λ s. Some s.taken.items };

    ghost faults = { λ s. s.faults };

    fn write(&mut self, piece: &[u8]) -> Result<usize, Failed>
        ensures bound { IfOk result (λ n. n ≤ length piece.now) }
        ensures bytes { WriteAppends (Some self.old.taken.items) (Some self.new.taken.items) result piece.now }
        ensures some { TakesSome result piece.now }
        ensures cause { HasCause self.old.faults self.new.faults result }
        // It fails exactly where the lists and the room say so.
        ensures fails { IsErr result ↔ WriteFails self.old.fail.items self.old.takes.items self.old.room (length self.old.taken.items) self.old.calls (length piece.now) }
        ensures count { IfOk result (λ n. n ≡ at_most self.old.takes.items self.old.calls (length piece.now)) }
        ensures calls { self.new.calls ≡ counted self.old.calls }
        ensures faults { self.new.faults ≡ (if is_err result then counted self.old.faults else self.old.faults) }
        ensures takes { self.new.takes ≡ self.old.takes }
        ensures fail { self.new.fail ≡ self.old.fail }
        ensures room { self.new.room ≡ self.old.room }
    {
        let call = self.calls;
        self.calls = next_count(call);
        let count = bounded(&self.takes, call, piece.len());
        let nothing = count == 0 && piece.len() != 0;
        if lists(&self.fail, call) || nothing || self.room < self.taken.len() + count {
            self.faults = next_count(self.faults);
            return Err(Failed);
        }
        if self.taken.extend_from_slice(&piece[..count]).is_err() {
            self.faults = next_count(self.faults);
            return Err(Failed);
        }
        Ok(count)
    }
}
