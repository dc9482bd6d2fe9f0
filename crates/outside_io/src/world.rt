//! What names are opened in.
ghost use Rattle.std.specs.Prelude.{◌≡◌, ◌≤◌, ◌<◌, ◌-◌, List, ℕ, Option, IfOk, IsErrOf};
ghost use Rattle.outside_io.specs.Faults.{Rose};
ghost use Rattle.outside_io.specs.Names.{Opens, Lacks};
ghost use Rattle.outside_io.specs.Opened.{CountsOpened};

use crate::source::Source;
use std::alloc::Global;
use std::marker::Send;

/// Why a name wasn't opened.
#[derive(Clone, Copy, Debug, PartialEq, Eq)]
pub enum OpenFault {
    /// There is no such name.
    NoSuch,
    /// The world failed.
    Failed,
    /// Want of memory.
    NoMemory,
}

/// Names with their bytes, a count of the feeds that are open, and a count of faults.
pub trait World {
    /// What an open name is read from.
    type Feed: Source + Send + Drop;

    /// The names with their bytes, where the world tells them. Of two equal names the first counts.
    ghost files: { Self → Option (List (List ℕ × List ℕ)) };

    /// How many of its feeds are open.
    ghost opened: { Self → ℕ };

    /// How often an open has failed, or a source that had failed was closed. It never falls.
    ghost faults: { Self → ℕ };

    /// Opens a name, from its first byte on. A name may be opened again. A count of open feeds that
    /// can't rise is want of memory.
    fn open(&mut self, alloc: Global, name: &str) -> Result<Self::Feed, OpenFault>
        ensures files { files self.new ≡ files self.old }
        ensures opened { CountsOpened (opened self.old) (opened self.new) result }
        ensures bytes { IfOk result (λ feed. Opens (files self.old) name.now (Self.Feed.left feed)) }
        ensures fresh { IfOk result (λ feed. Self.Feed.faults feed ≡ 0) }
        ensures no_such { IsErrOf result OpenFault.NoSuch → Lacks (files self.old) name.now }
        ensures wanting { IsErrOf result OpenFault.NoMemory → Lacks (files self.old) name.now → ⊥ }
        ensures failed { IsErrOf result OpenFault.Failed → Rose (faults self.old) (faults self.new) }
        ensures later { faults self.old ≤ faults self.new }
        ensures quiet { (IsErrOf result OpenFault.Failed → ⊥) → faults self.new ≡ faults self.old };

    /// Gives a source back. Its faults count as the world's.
    fn close(&mut self, feed: Self::Feed)
        ensures files { files self.new ≡ files self.old }
        ensures opened { opened self.new ≡ opened self.old - 1 }
        ensures quiet { Self.Feed.faults feed ≡ 0 → faults self.new ≡ faults self.old }
        ensures failed { 0 < Self.Feed.faults feed → Rose (faults self.old) (faults self.new) }
        ensures later { faults self.old ≤ faults self.new };
}
