//! How a terrain file begins.

ghost use Rattle.std.specs.Prelude.{◌≡◌, ◌≤◌, length};
ghost use Rattle.terrain_file.specs.Terrain.{cells, header_of, length_of};

use byteorder::{BigEndian, ByteOrder};

/// What a terrain file begins with: the letters TER1.
pub const MAGIC: [u8; 4] = *b"TER1";

/// Where the numbers behind them stand.
const X0: usize = 4;

const Y0: usize = 8;

const SIDE: usize = 12;

const COLUMNS: usize = 16;

const ROWS: usize = 18;

/// How many octets stand before the values.
pub const HEADER_LENGTH: usize = 20;

/// How many octets a value has.
pub const VALUE_LENGTH: usize = 2;

/// The numbers before the values.
#[derive(Clone, Copy)]
pub struct Header {
    /// The lower left corner, in metres.
    pub x0: i32,
    pub y0: i32,
    /// The side of a cell, in metres.
    pub side: u32,
    pub columns: u16,
    pub rows: u16,
}

impl Header {
    /// The header of a file that has one.
    pub fn of(bytes: &[u8]) -> Header
        requires { HEADER_LENGTH ≤ length bytes.now }
        ensures { result ≡ header_of bytes.now }
    {
        Header {
            x0: BigEndian::read_i32(&bytes[X0..Y0]),
            y0: BigEndian::read_i32(&bytes[Y0..SIDE]),
            side: BigEndian::read_u32(&bytes[SIDE..COLUMNS]),
            columns: BigEndian::read_u16(&bytes[COLUMNS..ROWS]),
            rows: BigEndian::read_u16(&bytes[ROWS..HEADER_LENGTH]),
        }
    }

    /// How many cells there are.
    pub fn cells(self) -> usize
        ensures { result ≡ cells self }
    {
        usize::from(self.rows) * usize::from(self.columns)
    }

    /// How many octets a file with this header has.
    pub fn length(self) -> usize
        ensures { result ≡ length_of self }
    {
        HEADER_LENGTH + VALUE_LENGTH * self.cells()
    }
}
