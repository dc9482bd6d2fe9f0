//! What a walk finds.

/// Where an item stands in its record: its first octet, from 0, and how many octets it has.
#[derive(Clone, Copy, Debug, PartialEq, Eq)]
pub struct Span {
    pub at: u32,
    pub len: u32,
}

/// A record's items by FRN from 1, and how many octets it has. An absent item has `len` 0.
#[derive(Debug, Drop)]
pub struct Walk<const N: usize> {
    pub spans: [Span; N],
    pub length: u32,
}
