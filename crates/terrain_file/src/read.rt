//! A file as a terrain.

ghost use Rattle.std.specs.Prelude.{◌≡◌, ◌≢◌, ◌≤◌, ◌+◌, ◌*◌, length, pos, ◌*ℤ◌, IfOk, IfErr, IsOk, Ok, Err};
ghost use Rattle.terrain_file.specs.declared.fault.TerrainFault.TheVariants.{NoMemory};
ghost use Rattle.terrain_file.specs.Ranges.{IsCorner, IsSide, IsTerrain, metres};
ghost use Rattle.terrain_file.specs.Terrain.{cells, found_of, heights_of, is_count, terrain_of, terrain_under};

use crate::fault::TerrainFault;
use crate::header::{HEADER_LENGTH, Header, MAGIC, VALUE_LENGTH};
use crate::terrain::{Heights, LEAST_SIDE, LENGTH_UNITS_PER_METRE, MOST_CELLS, MOST_SIDE, Terrain};
use byteorder::{BigEndian, ByteOrder};
use std::alloc::{AllocError, Global};

/// The octets that a terrain file has at most: its header, and a value for each cell.
pub const TERRAIN_ROOM: usize = HEADER_LENGTH + VALUE_LENGTH * (MOST_CELLS * MOST_CELLS) as usize;

/// The heights of so many cells.
#[tactic(auto, using(crate::proofs::Cells::heights_more, crate::proofs::Cells::heights_count))]
fn heights(alloc: Global, bytes: &[u8], count: usize) -> Result<Vec<i16>, AllocError>
    requires { HEADER_LENGTH + VALUE_LENGTH * count ≤ length bytes.now }
    ensures value { IfOk result (λ heights. heights.items ≡ heights_of bytes.now count) }
    ensures count { IfOk result (λ heights. length heights.items ≡ count) }
{
    let mut heights = Vec::with_capacity(alloc, count)?;
    for cell in 0..count {
        let at = HEADER_LENGTH + VALUE_LENGTH * cell;
        heights.push(BigEndian::read_i16(&bytes[at..at + VALUE_LENGTH]))?;
    }
    Ok(heights)
}

/// Whether a terrain may have so many columns, or rows.
fn is_count(count: u16) -> bool
    ensures { result ≡ is_count count }
{
    1 <= count && u32::from(count) <= MOST_CELLS
}

/// A corner's place along an axis, from metres.
fn corner(place: i32) -> i64
    ensures value { result ≡ place *ℤ pos (metres 1) }
    ensures inside { IsCorner result }
{
    i64::from(place) * LENGTH_UNITS_PER_METRE
}

/// The side of a cell, from metres.
fn side(length: u32) -> i64
    requires least { LEAST_SIDE ≤ length }
    requires most { length ≤ MOST_SIDE }
    ensures value { result ≡ pos (metres length) }
    ensures inside { IsSide result }
{
    i64::from(length) * LENGTH_UNITS_PER_METRE
}

/// The terrain of a header in range and a value for each cell.
fn terrain(header: Header, values: Heights) -> Terrain
    requires least { LEAST_SIDE ≤ header.side }
    requires most { header.side ≤ MOST_SIDE }
    requires columns { header.columns ≤ MOST_CELLS }
    requires rows { header.rows ≤ MOST_CELLS }
    requires values { length values ≡ cells header }
    ensures value { result ≡ terrain_under header values }
    ensures accepted { IsTerrain result }
{
    Terrain {
        x0: corner(header.x0),
        y0: corner(header.y0),
        cell: side(header.side),
        columns: u32::from(header.columns),
        rows: u32::from(header.rows),
        values,
    }
}

/// How many octets a file is told to have: a longer one is told as one octet longer than a terrain has at most.
fn found_of(bytes: &[u8]) -> u64
    ensures { result ≡ found_of bytes.now }
{
    bytes.len().min(TERRAIN_ROOM + 1) as u64
}

/// The terrain that a file's octets are, or their first fault. A file that is refused takes no memory.
#[tactic(auto, unfolding(crate::specs::Terrain::terrain_of))]
pub fn read_terrain(alloc: Global, bytes: &[u8]) -> Result<Terrain, TerrainFault>
    ensures ok { IfOk result (λ terrain. terrain_of bytes.now ≡ Ok terrain) }
    ensures fault { IfErr result (λ e. e ≢ NoMemory → terrain_of bytes.now ≡ Err e) }
    ensures memory { IfErr result (λ e. e ≡ NoMemory → IsOk (terrain_of bytes.now)) }
    ensures accepted { IfOk result IsTerrain }
{
    let length = bytes.len();
    if !bytes.starts_with(&MAGIC) {
        return Err(TerrainFault::Magic);
    }
    if length < HEADER_LENGTH {
        return Err(TerrainFault::Size(HEADER_LENGTH as u64, found_of(bytes)));
    }
    let header = Header::of(bytes);
    if header.side < LEAST_SIDE || MOST_SIDE < header.side {
        return Err(TerrainFault::Cell(header.side));
    }
    if !is_count(header.columns) || !is_count(header.rows) {
        return Err(TerrainFault::Count(header.columns, header.rows));
    }
    if length != header.length() {
        return Err(TerrainFault::Size(header.length() as u64, found_of(bytes)));
    }
    let values = heights(alloc, bytes, header.cells())?;
    Ok(terrain(header, Heights::new(values)))
}
