//! Blocks, and how a feed ends.
ghost use Rattle.std.specs.Prelude.{◌≡◌, length};

use std::marker::Model;

/// The octets of a block behind its header.
#[derive(Debug, Drop)]
pub struct Body {
    octets: Vec<u8>,
}

impl Model for Body {
    ghost use Rattle.std.specs.Prelude.{List, ℕ};

    ghost Value = { List ℕ };

    ghost view = { λ b. b.octets.items };
}

impl Body {
    /// These octets as a body.
    pub fn new(octets: Vec<u8>) -> Body
        ensures { result ≡ octets.items }
    {
        Body { octets }
    }

    /// How many octets there are.
    pub fn len(&self) -> usize
        ensures { result ≡ length self.now }
    {
        self.octets.len()
    }

    /// The octets, to read them.
    pub fn as_slice(&self) -> &[u8]
        ensures { result.now ≡ self.now }
    {
        self.octets.as_slice()
    }

    /// The octets, to keep them.
    pub fn into_vec(self) -> Vec<u8>
        ensures { result.items ≡ self }
    {
        self.octets
    }
}

/// A data block (ASTERIX part 1): a category, and the records that follow the length.
#[derive(Debug, Drop)]
pub struct Block {
    /// Where its first octet stands in the feed.
    pub offset: u64,
    /// What kind of records it has.
    pub category: u8,
    /// What follows the three octets of category and length.
    pub body: Body,
}

/// How a feed ends behind its last block.
#[derive(Clone, Copy, Debug, PartialEq, Eq)]
pub enum End {
    /// Nothing stands there.
    Clean,
    /// At this offset a block begins, and the feed has fewer octets than it takes.
    Truncated(u64),
    /// At this offset stands a length below that of a header. Nothing behind it is read.
    BadLength(u64),
}
