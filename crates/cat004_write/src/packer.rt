//! Messages in blocks.
ghost use Rattle.std.specs.Prelude.{◌≡◌, ◌≢◌, ◌+◌, ◌-◌, ◌<◌, ◌≤◌, ◌++◌, [], length, max, vec_len, vec_capacity, IsOk, OnOk, OnErr};
ghost use Rattle.cat004_write.specs.Blocks.{HoldsAll, Packs, Takes, block};
ghost use Rattle.cat004_write.specs.LastBlock.{HasRoom, extended};
ghost use Rattle.cat004_write.specs.Messages.{written};

use crate::NoMemory;
use crate::message::{MESSAGE_ROOM, Message};
use asterix_fields::put16;
use asterix_fields::sizes::HEADER_LENGTH;
use std::alloc::{AllocError, Global};
use std::marker::Model;
use std::mem;

/// The category of alert messages.
pub const CATEGORY: u8 = 4;

/// The octets of a written block at most.
pub const PACKED_ROOM: usize = 1_400;

/// The messages of a cycle in blocks, in the order in which they came.
#[derive(Drop)]
pub struct Packer {
    /// Whole blocks, one behind the other.
    bytes: Vec<u8>,
    /// Where the last of them begins, which takes more messages while it has room.
    last: usize,
    /// How many more messages there is memory for, though each opens a block and is as long as can be.
    spare: u64,
    alloc: Global,
}

impl Model for Packer {
    ghost use Rattle.std.specs.Prelude.{vec_len, vec_capacity};
    ghost use Rattle.cat004_write.specs.Blocks.{Held};
    ghost use Rattle.cat004_write.specs.LastBlock.{packing_of, HasSpare, IsWhole};

    ghost Value = { Held };

    ghost view = { λ p. record { blocks = packing_of p.bytes.items p.last; spare = p.spare } };

    ghost invariant = { λ p. IsWhole p.bytes.items p.last × HasSpare (vec_len p.bytes) (vec_capacity p.bytes) p.spare };
}

impl Packer {
    /// A packer without messages.
    pub fn new(alloc: Global) -> Packer
        ensures blocks { Packs result.blocks [] }
        ensures spare { result.spare ≡ 0 }
    {
        Packer {
            bytes: Vec::new(alloc),
            last: 0,
            spare: 0,
            alloc,
        }
    }

    /// Takes the memory for so many more messages at once, so that as many pushes can't be refused.
    pub fn reserve(&mut self, messages: u64) -> Result<(), NoMemory>
        ensures ok { OnOk result (messages ≤ self.new.spare) }
        ensures spare { OnOk result (self.new.spare ≡ max self.old.spare messages) }
        ensures blocks { self.new.blocks ≡ self.old.blocks }
        ensures err { OnErr result (self.new ≡ self.old) }
        ensures memory { OnErr result (self.old.spare < messages) }
    {
        if messages <= self.spare {
            return Ok(());
        }
        let Some(octets) = (messages as usize).checked_mul(HEADER_LENGTH + MESSAGE_ROOM) else {
            return Err(AllocError);
        };
        self.bytes.reserve(octets)?;
        self.spare = messages;
        Ok(())
    }

    /// Takes a message behind the others, into the present block, or into a new one where the present one
    /// has no room for it.
    pub fn push(&mut self, m: &Message) -> Result<(), NoMemory>
        requires { m.now.len ≤ MESSAGE_ROOM }
        ensures ok { OnOk result (Takes self.old.blocks (written m.now) self.new.blocks) }
        ensures spare { OnOk result (self.new.spare ≡ self.old.spare - 1) }
        ensures err { OnErr result (self.new ≡ self.old) }
        ensures memory { OnErr result (written m.now ≢ []) }
        ensures ready { 0 < self.old.spare → IsOk result }
    {
        let message = &m.bytes[..m.len as usize];
        let length = self.bytes.len() - self.last;
        let spare = self.spare.saturating_sub(1);
        if message.is_empty() {
            self.spare = spare;
            return Ok(());
        }
        if length == 0 || length + message.len() > PACKED_ROOM {
            let offset = self.bytes.len();
            begin_block(&mut self.bytes, message)?;
            self.last = offset;
            self.spare = spare;
            return Ok(());
        }
        extend_block(&mut self.bytes, self.last, message)?;
        self.spare = spare;
        Ok(())
    }

    /// The blocks of all messages since the last call. Leaves the packer without messages, and without memory
    /// for any.
    pub fn take(&mut self) -> Vec<u8>
        ensures blocks { HoldsAll self.old.blocks result.items }
        ensures emptied { Packs self.new.blocks [] }
        ensures spare { self.new.spare ≡ 0 }
    {
        self.last = 0;
        self.spare = 0;
        mem::replace(&mut self.bytes, Vec::new(self.alloc))
    }
}

/// Puts a block of this one message behind the others.
fn begin_block(bytes: &mut Vec<u8>, message: &[u8]) -> Result<(), NoMemory>
    requires { length message.now ≤ MESSAGE_ROOM }
    ensures ok { OnOk result (bytes.new.items ≡ bytes.old.items ++ block message.now) }
    ensures len { OnOk result (vec_len bytes.new ≡ vec_len bytes.old + HEADER_LENGTH + length message.now) }
    ensures err { OnErr result (bytes.new.items ≡ bytes.old.items) }
    ensures capacity { vec_capacity bytes.old ≤ vec_capacity bytes.new }
    ensures ready { vec_len bytes.old + HEADER_LENGTH + length message.now ≤ vec_capacity bytes.old → IsOk result }
{
    bytes.reserve(HEADER_LENGTH + message.len())?;
    let [high, low] = put16((HEADER_LENGTH + message.len()) as u16);
    bytes.extend_from_slice(&[CATEGORY, high, low])?;
    bytes.extend_from_slice(message)?;
    Ok(())
}

/// Puts a message into the last block.
fn extend_block(bytes: &mut Vec<u8>, offset: usize, message: &[u8]) -> Result<(), NoMemory>
    requires { HasRoom bytes.old.items offset message.now }
    ensures ok { OnOk result (bytes.new.items ≡ extended bytes.old.items offset message.now) }
    ensures len { OnOk result (vec_len bytes.new ≡ vec_len bytes.old + length message.now) }
    ensures err { OnErr result (bytes.new.items ≡ bytes.old.items) }
    ensures capacity { vec_capacity bytes.old ≤ vec_capacity bytes.new }
    ensures ready { vec_len bytes.old + length message.now ≤ vec_capacity bytes.old → IsOk result }
{
    bytes.extend_from_slice(message)?;
    let [high, low] = put16((bytes.len() - offset) as u16);
    bytes[offset + 1] = high;
    bytes[offset + 2] = low;
    Ok(())
}
