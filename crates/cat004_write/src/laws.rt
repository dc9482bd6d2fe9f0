//! Laws of the definitions: each is the contract of a function that does nothing.
ghost use Rattle.std.specs.Prelude.{ℕ, ◌≡◌, List, All};
ghost use Rattle.cat004_write.specs.Blocks.{pack};
ghost use Rattle.cat004_write.specs.Grouping.{FitsBlock, IsPacked};
ghost use Rattle.cat004_write.specs.MessagesInNumbers.{AreMessagesInNumbers, HasLastFigures};

use crate::message::MESSAGE_ROOM;
use crate::packer::{CATEGORY, PACKED_ROOM};
use crate::{ABOVE, BELOW, CURRENT_PROXIMITY, LEFT, RIGHT, URGENT};

/// Messages that fit a block each are packed into full blocks that hold each of them once, in order.
pub fn messages_in_full_blocks()
    ensures { (messages : List (List ℕ)) → All FitsBlock messages → IsPacked messages (pack messages) }
{}

/// The numbers of alert messages and of their blocks, each as a plain numeral.
pub fn numbers()
    ensures category { CATEGORY ≡ 4 }
    ensures block { PACKED_ROOM ≡ 1400 }
    ensures room { MESSAGE_ROOM ≡ 64 }
    ensures urgent { URGENT ≡ 1 }
    ensures current { CURRENT_PROXIMITY ≡ 2 }
    ensures below { BELOW ≡ 4 }
    ensures above { ABOVE ≡ 8 }
    ensures left { LEFT ≡ 16 }
    ensures right { RIGHT ≡ 32 }
    ensures figures { HasLastFigures }
    ensures messages { AreMessagesInNumbers }
{}
