//! All cycles of feeds: their stamps in order, the tables of the cycles, and the engine over each.
#![tactic(auto)]

mod cursor;
pub mod cycles;

pub use cycles::{Made, make_cycles};
