//! Why a text is no site.

use std::alloc::{AllocError, AllocFailed};
use thiserror::Error;

/// A field of a site file: its number in the table of fields, and the number of its entry (from 0) in its
/// repeated table. Outside those tables the entry is 0.
#[derive(Clone, Copy, Debug, PartialEq, Eq)]
pub struct Field {
    pub number: u16,
    pub entry: u32,
}

/// The first fault of a text that is no site.
#[derive(Clone, Copy, Debug, PartialEq, Eq, Error)]
pub enum SiteFault {
    /// The text is no TOML document.
    #[error("no TOML document")]
    Syntax,
    /// A field that must be there is absent.
    #[error("field {}, entry {}: absent", .0.number, .0.entry)]
    Missing(Field),
    /// The value, or a part of a list, is of another kind.
    #[error("field {}, entry {}: another kind", .0.number, .0.entry)]
    Kind(Field),
    /// This value is out of range, or this length of a text or a list.
    #[error("field {}, entry {}: {} is out of range", .0.number, .0.entry, .1)]
    Range(Field, i64),
    /// The entry's name is that of this earlier entry of the same table.
    #[error("field {}, entry {}: the name of entry {}", .0.number, .0.entry, .1)]
    Twice(Field, u32),
    /// No entry has this name.
    #[error("field {}, entry {}: no such name", .0.number, .0.entry)]
    NoSuchName(Field),
    /// The text is longer than `SITE_ROOM`.
    #[error("too long")]
    Long,
    /// Want of memory.
    #[error("out of memory")]
    NoMemory,
}

impl From<AllocError> for SiteFault {
    ghost use Rattle.std.specs.Prelude.{◌≡◌};
    ghost use Rattle.site_fields.specs.declared.fault.SiteFault.TheVariants.{NoMemory};

    ghost from_gives = { λ _ fault. fault ≡ NoMemory };

    fn from(_failed: AllocError) -> SiteFault {
        SiteFault::NoMemory
    }
}

impl<T: Drop> From<AllocFailed<T>> for SiteFault {
    ghost use Rattle.std.specs.Prelude.{◌≡◌};
    ghost use Rattle.site_fields.specs.declared.fault.SiteFault.TheVariants.{NoMemory};

    ghost from_gives = { λ _ fault. fault ≡ NoMemory };

    fn from(_failed: AllocFailed<T>) -> SiteFault {
        SiteFault::NoMemory
    }
}
