//! Reading a text of at most so many octets, in whatever pieces it comes.
ghost use Rattle.std.specs.Prelude.{◌≡◌, ◌≤◌, IfOk, IsErrOf};
ghost use Rattle.outside_io.specs.Faults.{Rose};
ghost use Rattle.outside_io.specs.Texts.{ReadsText, TakesAtMost};

use crate::source::Source;
use crate::world::OpenFault;
use std::alloc::{AllocError, Global};

/// The octets that are asked for at a time.
pub const PIECE: usize = 16_384;

/// Why nothing was read of a name or of a source.
#[derive(Clone, Copy, Debug, PartialEq, Eq)]
pub enum Unread {
    /// There is no such name, or it can't be opened.
    Unopened,
    /// A read failed.
    Broken,
    /// Want of memory.
    NoMemory,
}

impl From<AllocError> for Unread {
    ghost use Rattle.std.specs.Prelude.{◌≡◌};
    ghost use Rattle.outside_io.specs.declared.text.Unread.TheVariants.{NoMemory};

    ghost from_gives = { λ _ e. e ≡ NoMemory };

    fn from(_: AllocError) -> Self {
        Unread::NoMemory
    }
}

impl From<OpenFault> for Unread {
    ghost use Rattle.outside_io.specs.Texts.{GivesUnread};

    ghost from_gives = { GivesUnread };

    fn from(fault: OpenFault) -> Self {
        match fault {
            OpenFault::NoSuch | OpenFault::Failed => Unread::Unopened,
            OpenFault::NoMemory => Unread::NoMemory,
        }
    }
}

/// The next octets of a source to its end, and at most so many.
pub fn read_text<S: Source>(alloc: Global, source: &mut S, most: usize) -> Result<Vec<u8>, Unread>
    ensures told { IfOk result (λ text. ReadsText (S.left source.old) most text.items) }
    ensures within { TakesAtMost most (S.left source.old) (S.left source.new) }
    ensures opened { IsErrOf result Unread.Unopened → ⊥ }
    ensures failed { IsErrOf result Unread.Broken → Rose (S.faults source.old) (S.faults source.new) }
    ensures kept { (IsErrOf result Unread.Broken → ⊥) → S.faults source.new ≡ S.faults source.old }
    ensures later { S.faults source.old ≤ S.faults source.new }
{
    let mut text = Vec::new(alloc);
    let mut piece = [0; PIECE];
    let mut room = most;
    while room > 0 {
        let next = room.min(PIECE);
        let Ok(count) = source.read(&mut piece[..next]) else {
            return Err(Unread::Broken);
        };
        if count == 0 {
            break;
        }
        text.extend_from_slice(&piece[..count])?;
        room -= count;
    }
    Ok(text)
}
