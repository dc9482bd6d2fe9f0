//! Names of files that a site file sets.
ghost use Rattle.std.specs.Prelude.{◌≡◌, ◌≢◌, IfOk};

use std::alloc::{AllocError, Global};
use std::marker::Model;

/// The name of a file, as its octets.
#[derive(Debug, Drop)]
pub struct FileName {
    name: String,
}

impl Model for FileName {
    ghost use Rattle.std.specs.Prelude.{List, ℕ};
    ghost use Rattle.std.specs.String.{string_bytes};

    ghost Value = { List ℕ };

    ghost view = { λ file. string_bytes file.name };
}

impl FileName {
    /// This text as a name.
    pub fn new(alloc: Global, name: &str) -> Result<FileName, AllocError>
        ensures { IfOk result (λ file. file ≡ name.now) }
    {
        Ok(FileName {
            name: String::from_str(alloc, name)?,
        })
    }

    /// The name, to read it.
    pub fn as_str(&self) -> &str
        ensures { result.now ≡ self.now }
    {
        self.name.as_str()
    }
}
