//! What a terrain file says.
ghost use Rattle.std.specs.Prelude.{◌≡◌};

use std::alloc::Global;
use std::marker::Model;
use track_motion::motion::LENGTH_UNITS_PER_HALF_METRE;

/// The unit of a terrain's lengths.
pub const LENGTH_UNITS_PER_METRE: i64 = 2 * LENGTH_UNITS_PER_HALF_METRE as i64;

/// The least and the greatest side of a cell, in metres.
pub const LEAST_SIDE: u32 = 100;

pub const MOST_SIDE: u32 = 100_000;

/// How many columns there are at most, and how many rows.
pub const MOST_CELLS: u32 = 2048;

/// The value that says that a cell has no height.
pub const NO_HEIGHT: i16 = -32_768;

/// Heights of cells.
#[derive(Debug, Drop)]
pub struct Heights {
    heights: Vec<i16>,
}

impl Model for Heights {
    ghost use Rattle.std.specs.Prelude.{List, ℤ};

    ghost Value = { List ℤ };

    ghost view = { λ list. list.heights.items };
}

impl Heights {
    /// These heights as a list.
    pub fn new(heights: Vec<i16>) -> Heights
        ensures { result ≡ heights.items }
    {
        Heights { heights }
    }

    /// The heights, to read them.
    pub fn as_slice(&self) -> &[i16]
        ensures { result.now ≡ self.now }
    {
        self.heights.as_slice()
    }

    /// The heights, to keep them.
    pub fn into_vec(self) -> Vec<i16>
        ensures { result.items ≡ self }
    {
        self.heights
    }
}

/// Square cells on the system plane, in columns and rows, each with a height or without.
#[derive(Debug, Drop)]
pub struct Terrain {
    /// The lower left corner, in 1/512 m.
    pub x0: i64,
    pub y0: i64,
    /// The side of a cell, in 1/512 m.
    pub cell: i64,
    pub columns: u32,
    pub rows: u32,
    /// The cells' heights in 25 ft, `NO_HEIGHT` where a cell has none: rows from the least y up, in a row from the
    /// least x up.
    pub values: Heights,
}

impl Terrain {
    ghost use Rattle.terrain_file.specs.Ranges.{IsTerrain};
    ghost use Rattle.terrain_file.specs.Terrain.{no_terrain};

    /// The terrain of a site that has none: without a cell.
    pub fn none(alloc: Global) -> Terrain
        ensures none { result ≡ no_terrain }
        ensures accepted { IsTerrain result }
    {
        Terrain {
            x0: 0,
            y0: 0,
            cell: i64::from(LEAST_SIDE) * LENGTH_UNITS_PER_METRE,
            columns: 0,
            rows: 0,
            values: Heights::new(Vec::new(alloc)),
        }
    }
}
