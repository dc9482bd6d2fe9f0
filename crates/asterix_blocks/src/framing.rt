//! What stands at the front of octets.
ghost use Rattle.std.specs.Prelude.{◌≡◌, ◌+◌, ◌≤◌, length, true, IfOk, IfSome, OnErr, if◌then◌else◌};
ghost use Rattle.asterix_blocks.specs.Framing.{begins_whole, block_length, declared_length, front_block, end_at, framing_from};
ghost use Rattle.asterix_blocks.specs.Cutting.{IfGiven};

use crate::blocks::{Block, Body, End};
use crate::{FEED_ROOM, NoMemory};
use asterix_fields::be16;
use asterix_fields::sizes::{BLOCK_ROOM, HEADER_LENGTH};
use std::alloc::Global;

/// What the octets 2 and 3 say.
fn declared_length(octets: &[u8]) -> usize
    requires { HEADER_LENGTH ≤ length octets.now }
    ensures length { result ≡ declared_length octets.now }
    ensures bound { result ≤ BLOCK_ROOM }
{
    usize::from(be16([octets[1], octets[2]]))
}

/// How many octets the block at the front takes, if a whole one stands there.
pub fn whole_length(octets: &[u8]) -> Option<usize>
    ensures length { result ≡ (if begins_whole octets.now then Some (declared_length octets.now) else None) }
    ensures bound { IfSome result (λ length. length ≤ BLOCK_ROOM) }
{
    if octets.len() < HEADER_LENGTH {
        return None;
    }
    let length = declared_length(octets);
    if length < HEADER_LENGTH || octets.len() < length {
        return None;
    }
    Some(length)
}

/// The block at the front, if a whole one stands there. The octets begin at the offset in the feed.
pub fn first_block(alloc: Global, octets: &[u8], offset: u64) -> Result<Option<Block>, NoMemory>
    ensures block { IfOk result (λ found. found ≡ front_block offset octets.now) }
    ensures length { IfGiven result (λ block. block_length block ≡ declared_length octets.now) }
    ensures within { IfGiven result (λ block. block_length block ≤ length octets.now) }
    ensures bound { IfGiven result (λ block. block_length block ≤ BLOCK_ROOM) }
    ensures place { IfGiven result (λ block. block.offset ≡ offset) }

    // Memory is wanted for a block that is there.
    ensures memory { OnErr result (begins_whole octets.now ≡ true) }
{
    match whole_length(octets) {
        None => Ok(None),
        Some(length) => {
            let body = Vec::from_slice(alloc, &octets[HEADER_LENGTH..length])?;
            Ok(Some(Block {
                offset,
                category: octets[0],
                body: Body::new(body),
            }))
        }
    }
}

/// How a feed ends where no whole block stands at the front. The octets begin at the offset in the feed.
pub fn end_at(octets: &[u8], offset: u64) -> End
    ensures { result ≡ end_at offset octets.now }
{
    if octets.is_empty() {
        return End::Clean;
    }
    if octets.len() < HEADER_LENGTH {
        return End::Truncated(offset);
    }
    if declared_length(octets) < HEADER_LENGTH {
        End::BadLength(offset)
    } else {
        End::Truncated(offset)
    }
}

/// How a feed ends behind the blocks at the front. The octets begin at the offset in the feed.
pub fn end_of(octets: &[u8], offset: u64) -> End
    requires { offset + length octets.now ≤ FEED_ROOM }
    ensures { result ≡ (framing_from offset octets.now).end }
{
    let mut at = 0;
    while let Some(length) = whole_length(&octets[at..]) {
        at += length;
    }
    end_at(&octets[at..], offset + at as u64)
}
