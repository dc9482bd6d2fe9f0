//! Records and bodies, each answer worked out by hand from the octets.
ghost use Rattle.std.specs.Prelude.{◌≤◌, ◌+◌, length};

use asterix_fields::ItemFault;
use asterix_fields::sizes::BLOCK_ROOM;
use cat062_read::{Raw062, Refused, add_records, read_block, read_record, tables_hold};
use std::process::Abort;
use std::test::Fail;

/// The record of no items.
const NOTHING: Raw062 = Raw062 {
    source: None,
    number: None,
    time: None,
    xy: None,
    wgs: None,
    speed: None,
    accel: None,
    rate: None,
    flight_level: None,
    baro: None,
    code: None,
    tentative: false,
    simulated: false,
    ended: false,
};

/// A track at the origin that flies east, at level 330.
const EASTBOUND: [u8; 25] = [
    0x97, 0x0D, 0x24, 0x19, 0x0A, 0x46, 0x51, 0x00, 0x00, 0x00, 0x00, 0x00, 0x00, 0x00, 0x03, 0xE8,
    0x00, 0x00, 0x01, 0x01, 0x00, 0x05, 0x28, 0x00, 0x00,
];

/// A track 5,000 m east of it that flies west, 200 ft above.
const WESTBOUND: [u8; 25] = [
    0x97, 0x0D, 0x24, 0x19, 0x0A, 0x46, 0x51, 0x00, 0x00, 0x27, 0x10, 0x00, 0x00, 0x00, 0xFC, 0x18,
    0x00, 0x00, 0x01, 0x02, 0x00, 0x05, 0x30, 0x00, 0x00,
];

/// What is read of it.
const EAST: Raw062 = Raw062 {
    source: Some((25, 10)),
    time: Some(4_608_256),
    xy: Some((0, 0)),
    speed: Some((1000, 0)),
    number: Some(257),
    flight_level: Some(1320),
    rate: Some(0),
    ..NOTHING
};

/// What is read of the other.
const WEST: Raw062 = Raw062 {
    xy: Some((10_000, 0)),
    speed: Some((-1000, 0)),
    number: Some(258),
    flight_level: Some(1328),
    ..EAST
};

/// A record that a tracker sends, with compound items.
const USUAL: [u8; 61] = [
    0xBF, 0x7F, 0xEC, 0x19, 0x0A, 0x01, 0x46, 0x51, 0x00, 0x00, 0x89, 0x54, 0x40, 0x00, 0x35, 0x4A,
    0x1C, 0x00, 0x00, 0x00, 0x00, 0x00, 0x00, 0x03, 0xE8, 0x00, 0x00, 0x02, 0x9C, 0x00, 0x4D, 0x21,
    0x31, 0xCB, 0x38, 0x20, 0xC0, 0x40, 0x06, 0xA1, 0x4D, 0x21, 0x31, 0xCB, 0x38, 0x20, 0x01, 0x01,
    0x01, 0x00, 0x10, 0x02, 0x00, 0x80, 0x02, 0x05, 0x28, 0x05, 0x28, 0x00, 0x00,
];

/// What octets begin with: what is read of the record, and its length.
const RECORDS: [(&[u8], Raw062, usize); 13] = [
    (&EASTBOUND, EAST, 25),
    (&WESTBOUND, WEST, 25),
    // Without items, and an octet behind it.
    (&[0, 9], NOTHING, 1),
    (
        &USUAL,
        Raw062 {
            wgs: Some((9_000_000, 3_492_380)),
            code: Some(668),
            baro: Some((false, 1320)),
            ..EAST
        },
        61,
    ),
    // An acceleration.
    (
        &[0x01, 0x80, 0xFF, 0x80],
        Raw062 {
            accel: Some((-1, -128)),
            ..NOTHING
        },
        4,
    ),
    // A code with bits above it.
    (
        &[0x01, 0x40, 0xF2, 0x9C],
        Raw062 {
            code: Some(668),
            ..NOTHING
        },
        4,
    ),
    // An altitude with QNH correction.
    (
        &[0x01, 0x01, 0x08, 0xFF, 0xFE],
        Raw062 {
            baro: Some((true, -2)),
            ..NOTHING
        },
        5,
    ),
    // The track's status with an extension, and with two, of which the second is read over.
    (
        &[0x01, 0x04, 0x03, 0xC0],
        Raw062 {
            tentative: true,
            simulated: true,
            ended: true,
            ..NOTHING
        },
        4,
    ),
    (
        &[0x01, 0x04, 0x01, 0x41, 0xFE],
        Raw062 {
            ended: true,
            ..NOTHING
        },
        5,
    ),
    // Extended items and explicit ones.
    (&[1, 1, 1, 0x80, 1, 0], NOTHING, 6),
    (&[1, 1, 1, 0x08, 0, 0, 1, 0, 0, 0], NOTHING, 10),
    (&[1, 1, 1, 1, 0x04, 3, 9, 9], NOTHING, 8),
    (&[1, 1, 1, 1, 0x02, 1], NOTHING, 6),
];

fn check_record(rt: &impl Abort, bytes: &[u8], raw: Raw062, size: usize) {
    assert!(rt; bytes.len() <= BLOCK_ROOM);
    assert_eq!(rt;
        read_record(bytes),
        Ok((raw, size)),
        "the record in {bytes:?}"
    );
}

fn check_fault(rt: &impl Abort, bytes: &[u8], fault: ItemFault) {
    assert!(rt; bytes.len() <= BLOCK_ROOM);
    assert_eq!(rt; read_record(bytes), Err(fault), "the fault in {bytes:?}");
}

#[test]
fn what_is_read_of_records(rt: HostRuntime) {
    for (bytes, raw, size) in RECORDS.iter() {
        check_record(&rt, bytes, *raw, *size);
    }
}

/// The records of both tracks, one behind the other.
const BOTH: [u8; 50] = [
    0x97, 0x0D, 0x24, 0x19, 0x0A, 0x46, 0x51, 0x00, 0x00, 0x00, 0x00, 0x00, 0x00, 0x00, 0x03, 0xE8,
    0x00, 0x00, 0x01, 0x01, 0x00, 0x05, 0x28, 0x00, 0x00, 0x97, 0x0D, 0x24, 0x19, 0x0A, 0x46, 0x51,
    0x00, 0x00, 0x27, 0x10, 0x00, 0x00, 0x00, 0xFC, 0x18, 0x00, 0x00, 0x01, 0x02, 0x00, 0x05, 0x30,
    0x00, 0x00,
];

/// The first track, and of the second 5 octets; and the same with a spare item named in the second.
const CUT_OFF: [u8; 30] = [
    0x97, 0x0D, 0x24, 0x19, 0x0A, 0x46, 0x51, 0x00, 0x00, 0x00, 0x00, 0x00, 0x00, 0x00, 0x03, 0xE8,
    0x00, 0x00, 0x01, 0x01, 0x00, 0x05, 0x28, 0x00, 0x00, 0x97, 0x0D, 0x24, 0x19, 0x0A,
];

const SPARE_NAMED: [u8; 30] = [
    0x97, 0x0D, 0x24, 0x19, 0x0A, 0x46, 0x51, 0x00, 0x00, 0x00, 0x00, 0x00, 0x00, 0x00, 0x03, 0xE8,
    0x00, 0x00, 0x01, 0x01, 0x00, 0x05, 0x28, 0x00, 0x00, 0xD7, 0x0D, 0x24, 0x19, 0x0A,
];

/// Bodies of which all is read.
const BODIES: [(&[u8], &[Raw062]); 4] = [
    (&[], &[]),
    (&[0], &[NOTHING]),
    (&[0, 0], &[NOTHING, NOTHING]),
    (&BOTH, &[EAST, WEST]),
];

/// Bodies at offset 3 that are refused: their records, the offset of what is refused, and its first fault.
const REFUSED: [(&[u8], &[Raw062], u64, ItemFault); 8] = [
    (&[0x80], &[], 3, ItemFault::PastEnd(1)),
    (&[0x40, 0], &[], 3, ItemFault::SpareItem(2)),
    (&[1, 1, 1, 1, 1], &[], 3, ItemFault::LongFspec),
    (&[1, 1, 1, 1, 0x04, 0], &[], 3, ItemFault::ZeroLength(34)),
    (&[0, 1, 1, 1, 1, 1], &[NOTHING], 4, ItemFault::LongFspec),
    (
        &[0, 1, 1, 1, 1, 0x02, 0],
        &[NOTHING],
        4,
        ItemFault::ZeroLength(35),
    ),
    (&CUT_OFF, &[EAST], 28, ItemFault::PastEnd(4)),
    (&SPARE_NAMED, &[EAST], 28, ItemFault::SpareItem(2)),
];

#[test]
fn bodies_of_whole_records(rt: HostRuntime) -> Result<(), Fail> {
    for (body, records) in BODIES.iter() {
        assert!(rt; body.len() <= BLOCK_ROOM);
        let read = read_block(rt.alloc(), body, 3)?;
        assert!(rt; read.records.as_slice() == *records);
        assert_eq!(rt; read.refused, None);
    }
    Ok(())
}

#[test]
fn bodies_that_are_refused(rt: HostRuntime) -> Result<(), Fail> {
    for (body, records, offset, fault) in REFUSED.iter() {
        assert!(rt; body.len() <= BLOCK_ROOM);
        let read = read_block(rt.alloc(), body, 3)?;
        assert!(rt; read.records.as_slice() == *records);
        let (offset, fault) = (*offset, *fault);
        assert_eq!(rt; read.refused, Some(Refused { offset, fault }));
    }
    Ok(())
}

/// Three bodies into one list: the second is refused at its first record.
#[test]
fn records_behind_those_of_other_bodies(rt: HostRuntime) -> Result<(), Fail> {
    let mut list = Vec::new(rt.alloc());
    assert_eq!(rt; add_records(&mut list, &EASTBOUND, 3)?, None);
    let refused = Refused {
        offset: 31,
        fault: ItemFault::SpareItem(2),
    };
    assert_eq!(rt; add_records(&mut list, &[0x40, 0], 31)?, Some(refused));
    assert_eq!(rt; add_records(&mut list, &WESTBOUND, 36)?, None);
    assert!(rt; list.as_slice() == [EAST, WEST].as_slice());
    Ok(())
}

/// Writes presence octets that name one number, and answers where they end.
fn name(octets: &mut [u8], at: usize, number: usize) -> usize
    requires room { at + 5 ≤ length octets.old }
    requires from_one { 1 ≤ number }
    requires few { number ≤ 35 }
    ensures past { at + 1 ≤ result }
    ensures within { result ≤ at + 5 }
{
    let last = at + (number - 1) / 7;
    octets[last] = 1 << (7 - (number - 1) % 7);
    last + 1
}

/// A record whose last item is this one, and the same without its last octet.
fn check_length(rt: &impl Abort, frn: u8, bytes: &[u8]) {
    assert!(rt; !bytes.is_empty() && bytes.len() <= BLOCK_ROOM);
    match read_record(bytes) {
        Ok((_, size)) => assert_eq!(rt; size, bytes.len(), "the octets up to item {frn}"),
        Err(fault) => panic!(rt; "{fault} in the octets up to item {frn}"),
    }
    check_fault(rt, &bytes[..bytes.len() - 1], ItemFault::PastEnd(frn));
}

/// All items of an octet of the FSPEC that aren't compound: the octets of the FSPEC, the last item's FRN, and how many
/// octets the items have in all.
const FIXED: [(&[u8], u8, usize); 4] = [
    (&[0xBE], 7, 24),
    (&[1, 0xEC], 13, 14),
    (&[1, 1, 0xBC], 20, 9),
    (&[1, 1, 1, 0xD8], 26, 7),
];

#[test]
fn the_fixed_items(rt: HostRuntime) {
    for (fspec, frn, size) in FIXED.iter() {
        assert!(rt; fspec.len() <= 4 && *size <= 24);
        let mut record = [0; 28];
        record[..fspec.len()].copy_from_slice(fspec);
        check_length(&rt, *frn, &record[..fspec.len() + *size]);
    }
}

/// Octets that begin no record, and their first faults.
const FAULTS: [(&[u8], ItemFault); 8] = [
    (&[], ItemFault::PastEnd(0)),
    (&[0x97, 0x0D, 0x24, 0x19], ItemFault::PastEnd(1)),
    (&[0x40], ItemFault::SpareItem(2)),
    (&[1, 1, 1, 1, 0x80], ItemFault::SpareItem(29)),
    (&[1, 1, 1, 1, 0x40], ItemFault::SpareItem(30)),
    (&[1, 1, 1, 1, 0x20], ItemFault::SpareItem(31)),
    (&[1, 1, 1, 1, 0x10], ItemFault::SpareItem(32)),
    (&[1, 1, 1, 1, 0x08], ItemFault::SpareItem(33)),
];

#[test]
fn octets_that_begin_no_record(rt: HostRuntime) {
    for (bytes, fault) in FAULTS.iter() {
        check_fault(&rt, bytes, *fault);
    }
    check_fault(&rt, &EASTBOUND[..24], ItemFault::PastEnd(20));
}

/// The subfields of the compound items: an item's FRN, a subfield's number, and its length, of a repeated one with
/// one group.
const LENGTHS: [(u8, u8, u8); 108] = [
    // Item 380.
    (11, 1, 3),
    (11, 2, 6),
    (11, 3, 2),
    (11, 4, 2),
    (11, 5, 2),
    (11, 6, 2),
    (11, 7, 2),
    (11, 8, 1),
    (11, 9, 16),
    (11, 10, 2),
    (11, 11, 2),
    (11, 12, 7),
    (11, 13, 2),
    (11, 14, 2),
    (11, 15, 2),
    (11, 16, 2),
    (11, 17, 2),
    (11, 18, 2),
    (11, 19, 1),
    (11, 20, 8),
    (11, 21, 1),
    (11, 22, 6),
    (11, 23, 2),
    (11, 24, 1),
    (11, 25, 9),
    (11, 26, 2),
    (11, 27, 2),
    (11, 28, 2),
    // Item 290.
    (14, 1, 1),
    (14, 2, 1),
    (14, 3, 1),
    (14, 4, 1),
    (14, 5, 2),
    (14, 6, 1),
    (14, 7, 1),
    (14, 8, 1),
    (14, 9, 1),
    (14, 10, 1),
    // Item 295.
    (16, 1, 1),
    (16, 2, 1),
    (16, 3, 1),
    (16, 4, 1),
    (16, 5, 1),
    (16, 6, 1),
    (16, 7, 1),
    (16, 8, 1),
    (16, 9, 1),
    (16, 10, 1),
    (16, 11, 1),
    (16, 12, 1),
    (16, 13, 1),
    (16, 14, 1),
    (16, 15, 1),
    (16, 16, 1),
    (16, 17, 1),
    (16, 18, 1),
    (16, 19, 1),
    (16, 20, 1),
    (16, 21, 1),
    (16, 22, 1),
    (16, 23, 1),
    (16, 24, 1),
    (16, 25, 1),
    (16, 26, 1),
    (16, 27, 1),
    (16, 28, 1),
    (16, 29, 1),
    (16, 30, 1),
    (16, 31, 1),
    // Item 390.
    (21, 1, 2),
    (21, 2, 7),
    (21, 3, 4),
    (21, 4, 1),
    (21, 5, 4),
    (21, 6, 1),
    (21, 7, 4),
    (21, 8, 4),
    (21, 9, 3),
    (21, 10, 2),
    (21, 11, 2),
    (21, 12, 5),
    (21, 13, 6),
    (21, 14, 1),
    (21, 15, 7),
    (21, 16, 7),
    (21, 17, 2),
    (21, 18, 7),
    // Item 110.
    (24, 1, 1),
    (24, 2, 4),
    (24, 3, 6),
    (24, 4, 2),
    (24, 5, 2),
    (24, 6, 1),
    (24, 7, 1),
    // Item 500.
    (27, 1, 4),
    (27, 2, 2),
    (27, 3, 4),
    (27, 4, 1),
    (27, 5, 1),
    (27, 6, 2),
    (27, 7, 2),
    (27, 8, 1),
    // Item 340.
    (28, 1, 2),
    (28, 2, 4),
    (28, 3, 2),
    (28, 4, 2),
    (28, 5, 2),
    (28, 6, 1),
];

/// The subfields that one primary octet names at most: the item's FRN, the primary octets, and how many octets
/// the subfields have in all, a repeated one with one group.
const SUBFIELDS: [(u8, &[u8], u8); 18] = [
    (11, &[0xFE], 19),
    (11, &[1, 0xFE], 32),
    (11, &[1, 1, 0xFE], 18),
    (11, &[1, 1, 1, 0xFE], 24),
    (14, &[0xFE], 8),
    (14, &[1, 0xE0], 3),
    (16, &[0xFE], 7),
    (16, &[1, 0xFE], 7),
    (16, &[1, 1, 0xFE], 7),
    (16, &[1, 1, 1, 0xFE], 7),
    (16, &[1, 1, 1, 1, 0xE0], 3),
    (21, &[0xFE], 23),
    (21, &[1, 0xFE], 23),
    (21, &[1, 1, 0xF0], 23),
    (24, &[0xFE], 17),
    (27, &[0xFE], 16),
    (27, &[1, 0x80], 1),
    (28, &[0xFC], 13),
];

/// The first subfield that an item hasn't: its FRN, the primary octets that name it, and its number.
const SPARES: [(u8, &[u8], u8); 8] = [
    (11, &[1, 1, 1, 1, 0x80], 29),
    (14, &[1, 0x10], 11),
    (16, &[1, 1, 1, 1, 0x10], 32),
    (16, &[1, 1, 1, 1, 1], 36),
    (21, &[1, 1, 0x08], 19),
    (24, &[1, 0x80], 8),
    (27, &[1, 0x40], 9),
    (28, &[0x02], 7),
];

/// A compound item with these primary octets, all other octets being 1: the record, and where its subfields begin.
fn compound(rt: &impl Abort, frn: u8, primary: &[u8]) -> ([u8; 48], usize)
    ensures { result.1 ≤ 10 }
{
    assert!(rt; 1 <= frn && frn <= 35 && primary.len() <= 5);
    let mut record = [1; 48];
    let fspec = name(&mut record, 0, frn as usize);
    let start = fspec + primary.len();
    record[fspec..start].copy_from_slice(primary);
    (record, start)
}

/// Each subfield alone.
#[test]
fn lengths_of_subfields(rt: HostRuntime) {
    for (frn, number, size) in LENGTHS.iter() {
        assert!(rt; 1 <= *frn && *frn <= 35 && 1 <= *number && *number <= 35 && *size <= 16);
        let mut record = [1; 48];
        let fspec = name(&mut record, 0, *frn as usize);
        let start = name(&mut record, fspec, *number as usize);
        check_length(&rt, *frn, &record[..start + *size as usize]);
    }
}

/// All subfields of a primary octet.
#[test]
fn lengths_of_compound_items(rt: HostRuntime) {
    for (frn, primary, size) in SUBFIELDS.iter() {
        let (record, start) = compound(&rt, *frn, primary);
        assert!(rt; *size <= 32);
        check_length(&rt, *frn, &record[..start + *size as usize]);
    }
}

#[test]
fn spare_subfields(rt: HostRuntime) {
    for (frn, primary, number) in SPARES.iter() {
        let (record, start) = compound(&rt, *frn, primary);
        check_fault(
            &rt,
            &record[..start],
            ItemFault::SpareSubfield(*frn, *number),
        );
    }
}

#[test]
fn the_tables(rt: HostRuntime) {
    assert!(rt; tables_hold());
}
