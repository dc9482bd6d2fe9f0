//! Why a file is no terrain.

use std::alloc::{AllocError, AllocFailed};
use thiserror::Error;

/// The first fault of a file that is no terrain.
#[derive(Clone, Copy, Debug, PartialEq, Eq, Error)]
pub enum TerrainFault {
    /// It doesn't begin with the letters TER1.
    #[error("no terrain file")]
    Magic,
    /// The side of a cell, in metres, is out of range.
    #[error("a side of {0} m is out of range")]
    Cell(u32),
    /// How many columns or how many rows there are is out of range.
    #[error("{0} columns and {1} rows are out of range")]
    Count(u16, u16),
    /// How many octets the file must have, and how many it has.
    #[error("{1} octets in place of {0}")]
    Size(u64, u64),
    /// Want of memory.
    #[error("out of memory")]
    NoMemory,
}

impl From<AllocError> for TerrainFault {
    ghost use Rattle.std.specs.Prelude.{◌≡◌};
    ghost use Rattle.terrain_file.specs.declared.fault.TerrainFault.TheVariants.{NoMemory};

    ghost from_gives = { λ _ fault. fault ≡ NoMemory };

    fn from(_failed: AllocError) -> TerrainFault {
        TerrainFault::NoMemory
    }
}

impl<T: Drop> From<AllocFailed<T>> for TerrainFault {
    ghost use Rattle.std.specs.Prelude.{◌≡◌};
    ghost use Rattle.terrain_file.specs.declared.fault.TerrainFault.TheVariants.{NoMemory};

    ghost from_gives = { λ _ fault. fault ≡ NoMemory };

    fn from(_failed: AllocFailed<T>) -> TerrainFault {
        TerrainFault::NoMemory
    }
}
