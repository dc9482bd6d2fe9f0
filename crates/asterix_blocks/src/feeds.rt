//! Whole feeds.
ghost use Rattle.std.specs.Prelude.{◌≡◌, ◌≢◌, ◌≤◌, [], length, IfOk, OnOk, OnErr};
ghost use Rattle.asterix_blocks.specs.Framing.{blocks, end};
ghost use Rattle.asterix_blocks.specs.Cutting.{GivesAll, held_blocks, octets_of};

use crate::blocks::{Block, End};
use crate::cutting::Cutter;
use crate::framing::{end_at, first_block};
use crate::{FEED_ROOM, NoMemory};
use asterix_fields::sizes::HEADER_LENGTH;
use std::alloc::Global;

/// The blocks of a feed, and how it ends.
#[derive(Debug, Drop)]
pub struct Framed {
    pub blocks: Vec<Block>,
    pub end: End,
}

/// Frames a feed that is all there.
pub fn frame(alloc: Global, feed: &[u8]) -> Result<Framed, NoMemory>
    requires { length feed.now ≤ FEED_ROOM }
    ensures blocks { IfOk result (λ framed. framed.blocks.items ≡ blocks feed.now) }
    ensures end { IfOk result (λ framed. framed.end ≡ end feed.now) }
    ensures memory { OnErr result (blocks feed.now ≢ []) }
{
    let mut blocks = Vec::new(alloc);
    let mut at = 0;
    while let Some(block) = first_block(alloc, &feed[at..], at as u64)? {
        at += HEADER_LENGTH + block.body.len();
        blocks.push(block)?;
    }
    Ok(Framed {
        blocks,
        end: end_at(&feed[at..], at as u64),
    })
}

/// Frames a feed that comes in these pieces: the blocks and the end are those of the joined feed.
pub fn frame_pieces(alloc: Global, pieces: &[&[u8]]) -> Result<Framed, NoMemory>
    requires { length (octets_of pieces.now) ≤ FEED_ROOM }
    ensures blocks { IfOk result (λ framed. framed.blocks.items ≡ blocks (octets_of pieces.now)) }
    ensures end { IfOk result (λ framed. framed.end ≡ end (octets_of pieces.now)) }
    ensures memory { OnErr result (octets_of pieces.now ≢ []) }
{
    let mut cutter = Cutter::new(alloc)?;
    let mut blocks = Vec::new(alloc);
    for piece in pieces {
        cutter.feed(piece)?;
        take_blocks(&mut cutter, &mut blocks)?;
    }
    Ok(Framed {
        blocks,
        end: cutter.finish(),
    })
}

/// Takes all blocks that are whole by now.
pub fn take_blocks(cutter: &mut Cutter, taken: &mut Vec<Block>) -> Result<(), NoMemory>
    ensures given { OnOk result (GivesAll cutter.old taken.old.items cutter.new taken.new.items) }
    ensures memory { OnErr result (held_blocks cutter.old ≢ []) }
{
    while let Some(block) = cutter.next()? {
        taken.push(block)?;
    }
    Ok(())
}
