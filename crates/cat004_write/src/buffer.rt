//! A message while it is written.
ghost use Rattle.std.specs.Prelude.{◌≡◌, ◌≤◌, [], ◌++◌, length};
ghost use Rattle.cat004_write.specs.Messages.{HasPlace, written};

use crate::message::{MESSAGE_ROOM, Message};
use std::marker::Model;

/// The octets that were put so far, in the room of a message.
#[derive(Drop)]
pub struct Buffer {
    bytes: [u8; MESSAGE_ROOM],
    len: usize,
}

impl Model for Buffer {
    ghost use Rattle.std.specs.Prelude.{List, ℕ, ◌≤◌, take};
    ghost use Rattle.cat004_write.specs.declared.message.TheConstants.{MESSAGE_ROOM};

    ghost Value = { List ℕ };

    ghost view = { λ b. take b.len b.bytes };

    ghost invariant = { λ b. b.len ≤ MESSAGE_ROOM };
}

impl Buffer {
    /// An empty one.
    pub fn new() -> Self
        ensures { result ≡ [] }
    {
        Buffer {
            bytes: [0; MESSAGE_ROOM],
            len: 0,
        }
    }

    /// Puts these octets behind the others.
    pub fn put(&mut self, piece: &[u8])
        requires { HasPlace self.old (length piece.now) }
        ensures { self.new ≡ self.old ++ piece.now }
    {
        let end = self.len + piece.len();
        self.bytes[self.len..end].copy_from_slice(piece);
        self.len = end;
    }

    /// The message that was written.
    pub fn finish(self) -> Message
        ensures bytes { written result ≡ self }
        ensures len { result.len ≡ length self }
        ensures room { result.len ≤ MESSAGE_ROOM }
    {
        let bytes = self.bytes;
        let len = self.len as u8;
        Message { bytes, len }
    }
}
