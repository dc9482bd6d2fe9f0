//! What block framing keeps.
ghost use Rattle.std.specs.Prelude.{◌≡◌, List, ℕ};
ghost use Rattle.asterix_blocks.specs.declared.blocks.Block.{Block};
ghost use Rattle.asterix_blocks.specs.Framing.{blocks};
ghost use Rattle.asterix_blocks.specs.InNumbers.{AreBlocksInNumbers};
ghost use Rattle.asterix_fields.specs.Numbers.{AreOctets};
ghost use Rattle.asterix_blocks.specs.Spelling.{Consists, IsFramed};

use crate::FEED_ROOM;

/// Blocks that are written one behind the other are the blocks of the feed, and each feed consists of its
/// blocks. The end tells what stands behind them.
pub fn blocks_read_as_written()
    ensures read { (feed : List ℕ) (written : List Block) (rest : List ℕ) → Consists feed written rest → IsFramed feed written rest }
    ensures all { (feed : List ℕ) → AreOctets feed → (rest : List ℕ) × Consists feed (blocks feed) rest }
{}

/// The numbers of data blocks and of a feed, each as a plain numeral.
pub fn numbers()
    ensures feed { FEED_ROOM ≡ 1099511627776 }
    ensures blocks { AreBlocksInNumbers }
{}
