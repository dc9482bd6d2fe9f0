//! Why octets are no record.

use thiserror::Error;

/// The first fault of octets that begin no record. Items go by their field reference number (FRN, from 1).
#[derive(Clone, Copy, Debug, PartialEq, Eq, Error)]
pub enum ItemFault {
    /// The fifth octet of the FSPEC says that another follows.
    #[error("the FSPEC has more than five octets")]
    LongFspec,
    /// The item needs an octet past the end; item 0 is the FSPEC itself.
    #[error("item {0} passes the end")]
    PastEnd(u8),
    /// The FSPEC names an item that the table hasn't.
    #[error("item {0} is spare")]
    SpareItem(u8),
    /// The item's primary subfield names a subfield that the table hasn't; subfield 36 says that the
    /// fifth primary octet asks for another.
    #[error("subfield {1} of item {0} is spare")]
    SpareSubfield(u8, u8),
    /// The item's length octet is 0, and it counts itself.
    #[error("item {0} has length 0")]
    ZeroLength(u8),
}
