//! Approach path monitor (APM) for one track and one approach funnel.
#![tactic(auto)]

mod approach;
mod course;
mod firsts;
mod hit;
pub mod laws;
mod lines;
mod units;

pub use approach::Approach;
pub use hit::{FunnelHit, apm};
