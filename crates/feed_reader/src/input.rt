//! The content of a feed, read of a source in whatever pieces it comes.
ghost use Rattle.std.specs.Prelude.{◌≡◌, ◌≤◌, ◌++◌, [], IfOk, OnOk, IsErrOf, All, count_by, drop, not, length};
ghost use Rattle.outside_io.specs.Faults.{Rose};
ghost use Rattle.asterix_blocks.specs.Cutting.{StandsAt};
ghost use Rattle.cat062_read.specs.Tracks.{IsPlaced, is_usable as usable};
ghost use Rattle.feed_reader.specs.Content.{is_of_category, records_of, refusals_of};
ghost use Rattle.feed_reader.specs.Feeds.{AddsBlocks, Gathers, IsTellable, ReadsWhole, with_one, with_usable};

use crate::content::Input;
use asterix_blocks::{Block, Cutter, FEED_ROOM};
use asterix_fields::sizes::HEADER_LENGTH;
use cat062_read::laws::usable_records_are_long;
use cat062_read::{CATEGORY, Raw062, Refused, add_records, is_usable};
use outside_io::Source;
use outside_io::text::{PIECE, Unread};
use std::alloc::{AllocError, Global};

/// The usable records of a feed at most: half of its octets, since each takes two at least.
pub const MOST_USABLE: u64 = 1 << 39;

/// The content of blocks, each in the order of the feed: how many are of category 062 and how many of others,
/// their records and how many of these are usable, and what is refused of them. Counts stop at their last value.
#[derive(Debug, Drop)]
pub struct Gathered {
    pub blocks: u64,
    pub passed: u64,
    pub records: Vec<Raw062>,
    pub usable: u64,
    pub refused: Vec<Refused>,
}

impl Gathered {
    /// The content of no block.
    fn nothing(alloc: Global) -> Gathered
        ensures { Gathers result [] }
    {
        Gathered {
            blocks: 0,
            passed: 0,
            records: Vec::new(alloc),
            usable: 0,
            refused: Vec::new(alloc),
        }
    }
}

/// How many of the records from a place on are usable.
fn usable_from(records: &[Raw062], from: usize) -> u64
    requires { from ≤ length records.now }
    ensures { result ≡ count_by usable (drop from records.now) }
{
    let (_, rest) = records.split_at(from);
    rest.iter().filter(|raw| is_usable(raw)).count() as u64
}

/// Adds the content of a block of category 062; a block of another category is passed over.
fn add_block(block: &Block, gathered: &mut Gathered) -> Result<(), AllocError>
    requires { StandsAt block.now.offset block.now }
    ensures blocks { OnOk result (gathered.new.blocks ≡ with_one gathered.old.blocks (is_of_category block.now)) }
    ensures passed { OnOk result (gathered.new.passed ≡ with_one gathered.old.passed (not (is_of_category block.now))) }
    ensures records { OnOk result (gathered.new.records.items ≡ gathered.old.records.items ++ records_of block.now) }
    ensures usable { OnOk result (gathered.new.usable ≡ with_usable gathered.old.usable block.now) }
    ensures refused { OnOk result (gathered.new.refused.items ≡ gathered.old.refused.items ++ refusals_of block.now) }
    ensures placed { OnOk result (All IsPlaced gathered.old.records.items → All IsPlaced gathered.new.records.items) }
{
    if block.category != CATEGORY {
        gathered.passed = gathered.passed.saturating_add(1);
        return Ok(());
    }
    let place = block.offset + HEADER_LENGTH as u64;
    let before = gathered.records.len();
    let refused = add_records(&mut gathered.records, block.body.as_slice(), place)?;
    let usable = usable_from(&gathered.records, before);
    gathered.usable = gathered.usable.saturating_add(usable);
    if let Some(refused) = refused {
        gathered.refused.push(refused)?;
    }
    gathered.blocks = gathered.blocks.saturating_add(1);
    Ok(())
}

/// Adds the blocks that are whole by now.
fn add_blocks(cutter: &mut Cutter, gathered: &mut Gathered) -> Result<(), AllocError>
    ensures added { OnOk result (AddsBlocks cutter.old cutter.new gathered.old gathered.new) }
    ensures placed { OnOk result (All IsPlaced gathered.old.records.items → All IsPlaced gathered.new.records.items) }
{
    while let Some(block) = cutter.next()? {
        add_block(&block, gathered)?;
    }
    Ok(())
}

/// The content of what a source has left, to its end or to a length that no block has.
pub fn read_whole<S: Source>(alloc: Global, source: &mut S) -> Result<Input, Unread>
    ensures told { IfOk result (λ input. ReadsWhole (S.left source.old) input) }
    ensures tellable { IfOk result IsTellable }
    ensures opened { IsErrOf result Unread.Unopened → ⊥ }
    ensures failed { IsErrOf result Unread.Broken → Rose (S.faults source.old) (S.faults source.new) }
    ensures kept { (IsErrOf result Unread.Broken → ⊥) → S.faults source.new ≡ S.faults source.old }
    ensures later { S.faults source.old ≤ S.faults source.new }
{
    // The proof takes this law; the call does nothing.
    usable_records_are_long();
    let mut cutter = Cutter::new(alloc)?;
    let mut gathered = Gathered::nothing(alloc);
    let mut piece = [0; PIECE];
    let mut room = FEED_ROOM;
    while room > 0 && !cutter.has_bad_length() {
        let most = room.min(PIECE as u64) as usize;
        let Ok(count) = source.read(&mut piece[..most]) else {
            return Err(Unread::Broken);
        };
        if count == 0 {
            break;
        }
        cutter.feed(&piece[..count])?;
        add_blocks(&mut cutter, &mut gathered)?;
        room -= count as u64;
    }
    Ok(Input::new(gathered, cutter.finish()))
}
