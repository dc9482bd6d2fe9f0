//! The record grammar of ASTERIX, by tables: fields, items and records as octets.
#![tactic(auto)]

mod fault;
mod items;
pub mod laws;
mod numbers;
mod places;
mod presence;
pub mod sizes;
mod tables;
mod walking;

pub use fault::ItemFault;
pub use numbers::{be16, be24, be32, put16, put24, put32, signed16, signed24, signed32};
pub use places::{Span, Walk};
pub use tables::{Form, Subs, Uap, well_formed};
pub use walking::{find_items, walk};
