//! Sizes that hold for every category (ASTERIX part 1; the limits of presence octets and of a table are
//! this project's profile).

/// The octets of a block's category and length.
pub const HEADER_LENGTH: usize = 3;

/// The octets of a block at most, as its length can say. A body, and any text that is walked, has no more.
pub const BLOCK_ROOM: usize = 65_535;

/// The octets of an FSPEC or of a primary subfield at most.
pub const PRESENCE_ROOM: usize = 5;

/// The items of a table at most, as so many octets can name.
pub const MOST_ITEMS: usize = 35;

/// A subfield's number past those that primary octets can name.
pub const NO_SUBFIELD: u8 = 36;
