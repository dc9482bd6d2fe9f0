//! The rows of a table.
ghost use Rattle.std.specs.Prelude.{◌≡◌, length};

use std::marker::Model;
use track_motion::Stamped;

/// The rows of a table, in the order of their keys.
#[derive(Debug, Drop)]
pub struct Rows {
    rows: Vec<Stamped>,
}

impl Model for Rows {
    ghost use Rattle.std.specs.Prelude.{List};
    ghost use Rattle.track_motion.specs.declared.rank.Stamped.{Stamped};

    ghost Value = { List Stamped };

    ghost view = { λ r. r.rows.items };
}

impl Rows {
    /// These records as rows.
    pub fn new(rows: Vec<Stamped>) -> Rows
        ensures { result ≡ rows.items }
    {
        Rows { rows }
    }

    /// How many rows there are.
    pub fn len(&self) -> usize
        ensures { result ≡ length self.now }
    {
        self.rows.len()
    }

    /// The rows, to read them.
    pub fn as_slice(&self) -> &[Stamped]
        ensures { result.now ≡ self.now }
    {
        self.rows.as_slice()
    }
}
