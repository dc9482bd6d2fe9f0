//! Blocks from a feed that comes in pieces.
ghost use Rattle.std.specs.Prelude.{◌≡◌, ◌+◌, ◌*◌, ◌≤◌, ℕ, List, [], length, drop, vec_len, IsOk, IfOk, OnOk, OnErr, ◌≢◌};
ghost use Rattle.std.specs.Bool.{OnTrue, OnFalse};
ghost use Rattle.asterix_blocks.specs.declared.blocks.Block.{Block};
ghost use Rattle.asterix_blocks.specs.Framing.{end, end_at};
ghost use Rattle.asterix_blocks.specs.Cutting.{Cuts, EndsBadly, Feeds, Gives, GivesBehind, HasGivenAll, IfGiven, IfNoneGiven, StandsAt, coming, held_blocks, held_with};

use crate::blocks::{Block, End};
use crate::framing::{end_at, end_of, first_block};
use crate::{FEED_ROOM, NoMemory};
use asterix_fields::sizes::HEADER_LENGTH;
use std::alloc::Global;
use std::marker::Model;

/// Cuts a feed into its blocks, in whatever pieces it comes. A reader feeds a piece and takes blocks until
/// there is none, and finishes where the feed ends.
#[derive(Drop)]
pub struct Cutter {
    /// The octets fed. The first of them stand in blocks that were given.
    octets: Vec<u8>,
    /// How many those are.
    given: usize,
    /// The offset in the feed of the octet behind them.
    offset: u64,
    alloc: Global,
}

impl Model for Cutter {
    ghost use Rattle.std.specs.Prelude.{◌+◌, ◌-◌, ◌≤◌, drop, vec_len};
    ghost use Rattle.asterix_blocks.specs.declared.TheConstants.{FEED_ROOM};
    ghost use Rattle.asterix_blocks.specs.Held.{Held};

    ghost Value = { Held };

    ghost view = { λ c. record { offset = c.offset; octets = drop c.given c.octets.items } };

    ghost invariant = { λ c. (c.given ≤ vec_len c.octets) × (c.offset + (vec_len c.octets - c.given) ≤ FEED_ROOM) };
}

impl Cutter {
    /// A cutter at the start of a feed.
    pub fn new(alloc: Global) -> Result<Cutter, NoMemory>
        ensures memory { IsOk result }
        ensures held { IfOk result (λ cutter. cutter ≡ record { offset = 0; octets = [] }) }
        ensures start { IfOk result (λ cutter. Cuts cutter [] []) }
    {
        Ok(Cutter {
            octets: Vec::new(alloc),
            given: 0,
            offset: 0,
            alloc,
        })
    }

    /// Takes the next piece of the feed.
    pub fn feed(&mut self, piece: &[u8]) -> Result<(), NoMemory>
        requires { self.old.offset + length self.old.octets + length piece.now ≤ FEED_ROOM }
        ensures held { OnOk result (self.new ≡ held_with self.old piece.now) }
        ensures fed { OnOk result (Feeds self.old piece.now self.new) }
        ensures err { OnErr result (self.new ≡ self.old) }
        ensures memory { OnErr result (piece.now ≢ []) }
    {
        self.given = drop_given(&mut self.octets, self.given);
        self.octets.extend_from_slice(piece)?;
        Ok(())
    }

    /// The next block, if a whole one is held.
    pub fn next(&mut self) -> Result<Option<Block>, NoMemory>
        ensures block { IfGiven result (λ block. Gives self.old block self.new) }
        ensures given { IfGiven result (λ block. GivesBehind self.old block self.new) }
        ensures stands { IfGiven result (λ block. StandsAt self.old.offset block) }

        // None only where what was fed has no further block.
        ensures none { IfNoneGiven result (held_blocks self.old ≡ []) }
        ensures all { IfNoneGiven result (HasGivenAll self.old) }
        ensures same { IfNoneGiven result (self.new ≡ self.old) }

        // Memory is wanted only for a whole block that is held.
        ensures memory { OnErr result (held_blocks self.old ≢ []) }
        ensures err { OnErr result (self.new ≡ self.old) }
    {
        match first_block(self.alloc, &self.octets[self.given..], self.offset)? {
            None => Ok(None),
            Some(block) => {
                let length = HEADER_LENGTH + block.body.len();
                self.given += length;
                self.offset += length as u64;
                Ok(Some(block))
            }
        }
    }

    /// Whether the next length is below that of a header, so that nothing more of the feed is read.
    pub fn has_bad_length(&self) -> bool
        ensures bad { OnTrue result (EndsBadly self.now) }
        ensures good { OnFalse result (end_at self.now.offset self.now.octets ≢ End.BadLength self.now.offset) }
    {
        matches!(
            end_at(&self.octets[self.given..], self.offset),
            End::BadLength(_)
        )
    }

    /// How the feed ends, if nothing more of it comes.
    pub fn finish(self) -> End
        ensures held { result ≡ (coming self []).end }
        ensures end { (fed : List ℕ) (given : List Block) → Cuts self fed given → result ≡ end fed }
    {
        end_of(&self.octets[self.given..], self.offset)
    }
}

/// Drops the octets that were given, once they are half of all. Answers how many of those given are left.
fn drop_given(octets: &mut Vec<u8>, given: usize) -> usize
    requires { given ≤ vec_len octets.old }
    ensures rest { drop result octets.new.items ≡ drop given octets.old.items }
    ensures within { result ≤ vec_len octets.new }
    ensures count { given + vec_len octets.new ≡ result + vec_len octets.old }
    ensures half { 2 * result ≤ vec_len octets.new }
{
    let rest = octets.len() - given;
    if given < rest {
        return given;
    }
    octets.copy_within(given.., 0);
    octets.truncate(rest);
    0
}
