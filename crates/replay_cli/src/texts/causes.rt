//! The fault text of each cause.
ghost use Rattle.std.specs.Prelude.{◌≡◌};
ghost use Rattle.replay_cli.specs.Endings.{fault_of, site_fault, terrain_fault};

use crate::texts::{FaultText, Refusal};
use command_words::Name;
use cycle_engine::CycleFault;
use feed_reader::{FeedCount, Input};
use outside_io::Unread;
use site_params::SiteFault;
use std::alloc::{AllocError, AllocFailed};
use terrain_file::TerrainFault;

impl From<AllocError> for FaultText {
    ghost use Rattle.std.specs.Prelude.{◌≡◌};
    ghost use Rattle.replay_cli.specs.declared.texts.FaultText.TheVariants.{NoMemory};

    ghost from_gives = { λ _ e. e ≡ NoMemory };

    fn from(_: AllocError) -> Self {
        FaultText::NoMemory
    }
}

impl From<AllocFailed<FeedCount>> for FaultText {
    ghost use Rattle.std.specs.Prelude.{◌≡◌};
    ghost use Rattle.replay_cli.specs.declared.texts.FaultText.TheVariants.{NoMemory};

    ghost from_gives = { λ _ e. e ≡ NoMemory };

    fn from(_: AllocFailed<FeedCount>) -> Self {
        FaultText::NoMemory
    }
}

impl From<CycleFault> for FaultText {
    ghost use Rattle.replay_cli.specs.Endings.{GivesFault};

    ghost from_gives = { GivesFault };

    fn from(fault: CycleFault) -> Self {
        match fault {
            CycleFault::NoMemory => FaultText::NoMemory,
            CycleFault::WriteFault => FaultText::WriteFailed,
        }
    }
}

impl From<AllocFailed<Input>> for FaultText {
    ghost use Rattle.std.specs.Prelude.{◌≡◌};
    ghost use Rattle.replay_cli.specs.declared.texts.FaultText.TheVariants.{NoMemory};

    ghost from_gives = { λ _ e. e ≡ NoMemory };

    fn from(_: AllocFailed<Input>) -> Self {
        FaultText::NoMemory
    }
}

/// The fault of a run that read nothing of this name.
pub fn unread_of(unread: Unread, name: Name) -> FaultText
    ensures { result ≡ fault_of unread name }
{
    match unread {
        Unread::Unopened => FaultText::CannotOpen(name),
        Unread::Broken => FaultText::ReadFailed(name),
        Unread::NoMemory => FaultText::NoMemory,
    }
}

/// The fault of a run whose site is refused.
pub fn refused(fault: SiteFault) -> FaultText
    ensures { result ≡ site_fault fault }
{
    match fault {
        SiteFault::NoMemory => FaultText::NoMemory,
        fault => FaultText::Refused(Refusal::Site(fault)),
    }
}

/// The fault of a run whose terrain is refused.
pub fn refused_terrain(fault: TerrainFault) -> FaultText
    ensures { result ≡ terrain_fault fault }
{
    match fault {
        TerrainFault::NoMemory => FaultText::NoMemory,
        fault => FaultText::Refused(Refusal::Terrain(fault)),
    }
}
