//! Pairs of numbers as a site holds them.
ghost use Rattle.std.specs.Prelude.{◌≡◌};

use std::marker::Model;

/// Pairs of numbers in file order.
#[derive(Debug, Drop)]
pub struct Pairs {
    pairs: Vec<(i64, i64)>,
}

impl Model for Pairs {
    ghost use Rattle.std.specs.Prelude.{List, ℤ};

    ghost Value = { List (ℤ × ℤ) };

    ghost view = { λ list. list.pairs.items };
}

impl Pairs {
    /// These pairs as a list.
    pub fn new(pairs: Vec<(i64, i64)>) -> Pairs
        ensures { result ≡ pairs.items }
    {
        Pairs { pairs }
    }

    /// The pairs, to read them.
    pub fn as_slice(&self) -> &[(i64, i64)]
        ensures { result.now ≡ self.now }
    {
        self.pairs.as_slice()
    }

    /// The pairs, to keep them.
    pub fn into_vec(self) -> Vec<(i64, i64)>
        ensures { result.items ≡ self }
    {
        self.pairs
    }
}
