//! Short term conflict alert (STCA) for one pair of tracks: linear prediction beside current proximity.
#![tactic(auto)]

mod early;
mod hit;
pub mod laws;
mod limits;
mod pair;
mod relative;

pub use hit::{LARGEST_CHS, LARGEST_SEPARATION, StcaHit};
pub use pair::examine;
