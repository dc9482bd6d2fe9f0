//! The terrain file: the heights of square cells on the system plane.
#![tactic(auto)]

mod fault;
mod header;
pub mod laws;
mod read;
mod terrain;

pub use fault::TerrainFault;
pub use read::{TERRAIN_ROOM, read_terrain};
pub use terrain::{Heights, LEAST_SIDE, MOST_CELLS, MOST_SIDE, NO_HEIGHT, Terrain};
