//! The numbers of the terrain file: a law is the contract of a function that does nothing.
ghost use Rattle.std.specs.Prelude.{◌≡◌, ◌∷◌, [], pos, neg_ℤ};
ghost use Rattle.terrain_file.specs.declared.header.TheConstants.{COLUMNS, HEADER_LENGTH, MAGIC, ROWS, SIDE, VALUE_LENGTH, X0, Y0};

use crate::read::TERRAIN_ROOM;
use crate::terrain::{LEAST_SIDE, LENGTH_UNITS_PER_METRE, MOST_CELLS, MOST_SIDE, NO_HEIGHT};

/// The letters TER1; where each number stands behind them, in octets; the sides (100 m to 100 km) and the counts
/// of cells that are taken; the unit of lengths (1/512 m); the value that is no height.
pub fn numbers()
    ensures letters { MAGIC ≡ 84 ∷ 69 ∷ 82 ∷ 49 ∷ [] }
    ensures corner { (X0 ≡ 4) × (Y0 ≡ 8) }
    ensures side { SIDE ≡ 12 }
    ensures counts { (COLUMNS ≡ 16) × (ROWS ≡ 18) }
    ensures header { HEADER_LENGTH ≡ 20 }
    ensures value { VALUE_LENGTH ≡ 2 }
    ensures room { TERRAIN_ROOM ≡ 8388628 }
    ensures sides { (LEAST_SIDE ≡ 100) × (MOST_SIDE ≡ 100000) }
    ensures cells { MOST_CELLS ≡ 2048 }
    ensures metre { LENGTH_UNITS_PER_METRE ≡ pos 512 }
    ensures none { NO_HEIGHT ≡ neg_ℤ (pos 32768) }
{}
