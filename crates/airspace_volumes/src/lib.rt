//! Area proximity warning (APW) for one track and one airspace volume.
#![tactic(auto)]

mod area;
mod bounds;
mod hit;
pub mod laws;
mod times;

pub use area::Area;
pub use bounds::Bounds;
pub use hit::apw;
pub use polygon_plan::NoMemory;
pub use times::active;
