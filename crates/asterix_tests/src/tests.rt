//! What the octets of fields, blocks, tracks and alert messages are, as worked out by hand.

mod blocks;
mod fields;
mod messages;
mod records;
