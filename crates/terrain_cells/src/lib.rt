//! Minimum safe altitude warning (MSAW) for one track over a terrain.
#![tactic(auto)]

mod arithmetic;
mod axis;
mod ground;
mod height;
mod hit;
pub mod laws;

pub use ground::Ground;
pub use hit::msaw;
