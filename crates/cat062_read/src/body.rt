//! The records of a block's body.
ghost use Rattle.std.specs.Prelude.{◌≡◌, ◌≢◌, ◌≤◌, ◌++◌, [], IfOk, OnErr, OnOk, All, length};
ghost use Rattle.cat062_read.specs.Records.{AddsSome, IsBodyAt, records, refusal, refused_from};
ghost use Rattle.cat062_read.specs.Tracks.{IsPlaced};

use crate::reading::Reader;
use crate::record::Raw062;
use asterix_fields::ItemFault;
use asterix_fields::laws::read_as_spelled;
use asterix_fields::sizes::BLOCK_ROOM;
use std::alloc::{AllocError, Global};

/// Want of memory.
pub type NoMemory = AllocError;

/// The last offset in a feed at which a body may begin.
pub const LAST_PLACE: u64 = 1 << 40;

/// Where octets begin no record: the offset in the feed of the first of them, and their first fault.
#[derive(Clone, Copy, Debug, PartialEq, Eq)]
pub struct Refused {
    pub offset: u64,
    pub fault: ItemFault,
}

/// The records of a body in order, and what is refused behind them; the rest of that body is lost.
#[derive(Debug, Drop)]
pub struct BlockRead {
    pub records: Vec<Raw062>,
    pub refused: Option<Refused>,
}

/// Reads the body of a block of category 62, whose first octet stands at this offset in the feed.
pub fn read_block(alloc: Global, body: &[u8], offset: u64) -> Result<BlockRead, NoMemory>
    requires room { length body.now ≤ BLOCK_ROOM }
    requires early { offset ≤ LAST_PLACE }
    ensures records { IfOk result (λ read. read.records.items ≡ records body.now) }
    ensures refused { IfOk result (λ read. read.refused ≡ refused_from offset (refusal body.now)) }
    ensures placed { IfOk result (λ read. All IsPlaced read.records.items) }

    // Memory is wanted only for a record: a body that is refused at its first takes none.
    ensures memory { OnErr result (records body.now ≢ []) }
{
    let mut records = Vec::new(alloc);
    let refused = add_records(&mut records, body, offset)?;
    Ok(BlockRead { records, refused })
}

/// Reads the same behind the records that a list has, and answers what is refused. Where memory is wanting, the
/// list has some of the body's records behind its own, but not all.
pub fn add_records(
    list: &mut Vec<Raw062>,
    body: &[u8],
    offset: u64,
) -> Result<Option<Refused>, NoMemory>
    requires { IsBodyAt body.now offset }
    ensures records { OnOk result (list.new.items ≡ list.old.items ++ records body.now) }
    ensures refused { IfOk result (λ refused. refused ≡ refused_from offset (refusal body.now)) }
    ensures placed { OnOk result (All IsPlaced list.old.items → All IsPlaced list.new.items) }
    ensures err { OnErr result (AddsSome list.old.items list.new.items (records body.now)) }
{
    // The proof takes this law; the call does nothing.
    read_as_spelled();
    let mut reader = Reader::new();
    let mut rest = body;
    while !rest.is_empty() {
        match reader.read(rest) {
            Ok((raw, size)) => {
                list.push(raw)?;
                let (_, after) = rest.split_at(size);
                rest = after;
            }
            Err(fault) => {
                let offset = offset + (body.len() - rest.len()) as u64;
                return Ok(Some(Refused { offset, fault }));
            }
        }
    }
    Ok(None)
}
