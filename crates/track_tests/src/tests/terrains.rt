//! Terrain files octet by octet, each answer worked out by hand: a metre is 512 units.

use std::alloc::{AllocError, Global};
use std::process::Abort;
use std::test::Fail;
use terrain_file::{NO_HEIGHT, TERRAIN_ROOM, Terrain, TerrainFault, read_terrain};

/// Two by two cells of 1,000 m from (0, 0) on: 1,000 ft below, 2,000 ft above.
const TWO_BY_TWO: [u8; 28] = [
    0x54, 0x45, 0x52, 0x31, 0x00, 0x00, 0x00, 0x00, 0x00, 0x00, 0x00, 0x00, 0x00, 0x00, 0x03, 0xE8,
    0x00, 0x02, 0x00, 0x02, 0x00, 0x28, 0x00, 0x28, 0x00, 0x50, 0x00, 0x50,
];

/// A header whose corner is (0, 0).
fn header(side: u32, columns: u16, rows: u16) -> [u8; 20] {
    let [a, b, c, d] = side.to_be_bytes();
    let [e, f] = columns.to_be_bytes();
    let [g, h] = rows.to_be_bytes();
    [
        0x54, 0x45, 0x52, 0x31, 0, 0, 0, 0, 0, 0, 0, 0, a, b, c, d, e, f, g, h,
    ]
}

/// A file of these parts.
fn file(alloc: Global, header: &[u8], values: &[u8]) -> Result<Vec<u8>, AllocError> {
    let mut bytes = Vec::from_slice(alloc, header)?;
    bytes.extend_from_slice(values)?;
    Ok(bytes)
}

/// This is the first fault of the file.
fn expect_fault(rt: &impl Abort, alloc: Global, bytes: &[u8], fault: TerrainFault) {
    match read_terrain(alloc, bytes) {
        Ok(_) => panic!(rt; "accepted in place of {fault:?}"),
        Err(found) => assert_eq!(rt; found, fault),
    }
}

#[test]
fn terrain_of_two_by_two_cells(rt: HostRuntime) -> Result<(), Fail> {
    let terrain = read_terrain(rt.alloc(), &TWO_BY_TWO)?;
    assert_eq!(rt; terrain.x0, 0);
    assert_eq!(rt; terrain.y0, 0);
    assert_eq!(rt; terrain.cell, 512_000);
    assert_eq!(rt; terrain.columns, 2);
    assert_eq!(rt; terrain.rows, 2);
    assert_eq!(rt; terrain.values.as_slice(), [40, 40, 80, 80].as_slice());
    Ok(())
}

#[test]
fn an_octet_less_and_an_octet_more(rt: HostRuntime) -> Result<(), Fail> {
    let less = TerrainFault::Size(28, 27);
    expect_fault(&rt, rt.alloc(), &TWO_BY_TWO[..27], less);
    let longer = file(rt.alloc(), &TWO_BY_TWO, &[0])?;
    let more = TerrainFault::Size(28, 29);
    expect_fault(&rt, rt.alloc(), &longer, more);
    Ok(())
}

#[test]
fn files_without_a_header(rt: HostRuntime) {
    let rows: [(&[u8], TerrainFault); 7] = [
        (&[], TerrainFault::Magic),
        (b"TER", TerrainFault::Magic),
        (b"TER2", TerrainFault::Magic),
        (b"ter1 ter1 ter1 ter1 ter1", TerrainFault::Magic),
        (b"TER1", TerrainFault::Size(20, 4)),
        // The side is 0, and there is no column.
        (&header(0, 0, 0)[..19], TerrainFault::Size(20, 19)),
        (&header(0, 0, 0)[..16], TerrainFault::Size(20, 16)),
    ];
    for (bytes, fault) in &rows {
        expect_fault(&rt, rt.alloc(), *bytes, *fault);
    }
}

#[test]
fn headers_out_of_range(rt: HostRuntime) {
    let rows = [
        // There is no column either, and no value.
        (header(0, 0, 0), TerrainFault::Cell(0)),
        (header(99, 0, 1), TerrainFault::Cell(99)),
        (header(100_001, 1, 1), TerrainFault::Cell(100_001)),
        (
            header(4_294_967_295, 1, 1),
            TerrainFault::Cell(4_294_967_295),
        ),
        (header(100, 0, 0), TerrainFault::Count(0, 0)),
        (header(100, 0, 1), TerrainFault::Count(0, 1)),
        (header(100, 1, 0), TerrainFault::Count(1, 0)),
        (header(100_000, 2049, 1), TerrainFault::Count(2049, 1)),
        (header(100_000, 1, 2049), TerrainFault::Count(1, 2049)),
        (header(100, 65_535, 256), TerrainFault::Count(65_535, 256)),
        // Without the values.
        (header(100, 1, 1), TerrainFault::Size(22, 20)),
        (header(100_000, 3, 2), TerrainFault::Size(32, 20)),
        (header(100, 2048, 2048), TerrainFault::Size(8_388_628, 20)),
    ];
    for (bytes, fault) in &rows {
        expect_fault(&rt, rt.alloc(), bytes, *fault);
    }
}

#[test]
fn signed_heights_in_file_order(rt: HostRuntime) -> Result<(), Fail> {
    let values = [
        0xFF, 0xFF, 0x80, 0x00, 0x7F, 0xFF, 0x00, 0x01, 0x01, 0x00, 0xFF, 0x38,
    ];
    let bytes = file(rt.alloc(), &header(100, 3, 2), &values)?;
    let terrain = read_terrain(rt.alloc(), &bytes)?;
    assert_eq!(rt; terrain.columns, 3);
    assert_eq!(rt; terrain.rows, 2);
    assert_eq!(rt; terrain.cell, 51_200);
    let heights = [-1, NO_HEIGHT, 32_767, 1, 256, -200];
    assert_eq!(rt; terrain.values.as_slice(), heights.as_slice());
    Ok(())
}

#[test]
fn farthest_corner_and_one_cell(rt: HostRuntime) -> Result<(), Fail> {
    let bytes = [
        0x54, 0x45, 0x52, 0x31, 0x80, 0x00, 0x00, 0x00, 0x7F, 0xFF, 0xFF, 0xFF, 0x00, 0x01, 0x86,
        0xA0, 0x00, 0x01, 0x00, 0x01, 0x00, 0x64,
    ];
    let terrain = read_terrain(rt.alloc(), &bytes)?;
    assert_eq!(rt; terrain.x0, -1_099_511_627_776);
    assert_eq!(rt; terrain.y0, 1_099_511_627_264);
    assert_eq!(rt; terrain.cell, 51_200_000);
    assert_eq!(rt; terrain.columns, 1);
    assert_eq!(rt; terrain.rows, 1);
    assert_eq!(rt; terrain.values.as_slice(), [100].as_slice());
    Ok(())
}

/// The greatest file: each value is its column, counted from 0.
fn greatest(alloc: Global) -> Result<Vec<u8>, AllocError> {
    let mut bytes = Vec::with_capacity(alloc, TERRAIN_ROOM + 1)?;
    bytes.extend_from_slice(&header(100, 2048, 2048))?;
    for _ in 0..2048 {
        for column in 0u16..2048 {
            bytes.extend_from_slice(&column.to_be_bytes())?;
        }
    }
    Ok(bytes)
}

#[test]
fn most_cells(rt: HostRuntime) -> Result<(), Fail> {
    assert_eq!(rt; TERRAIN_ROOM, 8_388_628);
    let mut bytes = greatest(rt.alloc())?;
    assert_eq!(rt; bytes.len(), TERRAIN_ROOM);
    let terrain = read_terrain(rt.alloc(), &bytes)?;
    assert_eq!(rt; terrain.columns, 2048);
    assert_eq!(rt; terrain.rows, 2048);
    let heights = terrain.values.into_vec();
    assert_eq!(rt; heights.len(), 4_194_304);
    assert_eq!(rt; heights[2047], 2047);
    assert_eq!(rt; heights[2048], 0);
    assert_eq!(rt; heights[4_194_302], 2046);
    assert_eq!(rt; heights[4_194_303], 2047);
    // However much longer it is, one octet more is told.
    let more = TerrainFault::Size(8_388_628, 8_388_629);
    for octets in [1, 1, 1_000] {
        for _ in 0..octets {
            bytes.push(0)?;
        }
        expect_fault(&rt, rt.alloc(), &bytes, more);
    }
    Ok(())
}

#[test]
fn terrain_of_a_site_without_one(rt: HostRuntime) {
    let terrain = Terrain::none(rt.alloc());
    assert_eq!(rt; terrain.x0, 0);
    assert_eq!(rt; terrain.y0, 0);
    assert_eq!(rt; terrain.cell, 51_200);
    assert_eq!(rt; terrain.columns, 0);
    assert_eq!(rt; terrain.rows, 0);
    assert_eq!(rt; terrain.values.as_slice().len(), 0);
}

/// A call that is refused memory says so, and answers as before when it is made again.
#[test]
fn want_of_memory(rt: HostRuntime) -> Result<(), Fail> {
    let terrain = match read_terrain(rt.alloc(), &TWO_BY_TWO) {
        Ok(terrain) => terrain,
        Err(fault) => {
            assert_eq!(rt; fault, TerrainFault::NoMemory);
            read_terrain(rt.alloc(), &TWO_BY_TWO)?
        }
    };
    assert_eq!(rt; terrain.values.as_slice(), [40, 40, 80, 80].as_slice());
    Ok(())
}
