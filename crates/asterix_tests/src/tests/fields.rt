//! Records by a small table, each answer worked out by hand from the forms.
use asterix_fields::Form::{Compound, Explicit, Extended, Fixed, Repeat, Spare};
use asterix_fields::sizes::{BLOCK_ROOM, MOST_ITEMS};
use asterix_fields::{
    Form, ItemFault, Span, Subs, Uap, be16, be24, be32, find_items, put16, put24, put32, signed16,
    signed24, signed32, walk, well_formed,
};
use std::process::Abort;

/// The items of a small table, each form once; the extended ones have parts of one octet and of three.
const ITEMS: Uap<7> = Uap([
    Fixed(2),
    Spare,
    Extended(1),
    Extended(3),
    Explicit,
    Repeat(2),
    Compound { first: 1, count: 8 },
]);

/// The compound item's subfields stand behind a row that is of no item.
const SUBFIELDS: Subs<9> = Subs([
    Fixed(9),
    Fixed(3),
    Repeat(15),
    Fixed(1),
    Fixed(1),
    Fixed(1),
    Fixed(1),
    Fixed(1),
    Fixed(4),
]);

/// Three items: 1, 3 and 7.
const THREE: [u8; 7] = [0xA2, 9, 9, 1, 0, 0x20, 5];

/// Two groups of 15 octets in subfield 2 of item 7.
const TWO_GROUPS: [u8; 33] = [
    0x02, 0x40, 2, 0, 0, 0, 0, 0, 0, 0, 0, 0, 0, 0, 0, 0, 0, 0, 0, 0, 0, 0, 0, 0, 0, 0, 0, 0, 0, 0,
    0, 0, 0,
];

/// Records: the length of each, and an item's FRN, offset and length.
const RECORDS: [(&[u8], u32, usize, u32, u32); 19] = [
    // Without items.
    (&[0], 1, 1, 1, 0),
    (&[1, 0], 2, 7, 2, 0),
    // A fixed item, with an octet behind the record.
    (&[0x80, 0x19, 0x0A, 0xFF], 3, 1, 1, 2),
    // Extended items.
    (&[0x20, 1, 1, 0], 4, 3, 1, 3),
    (&[0x10, 0, 0, 1, 0, 0, 0], 7, 4, 1, 6),
    // An explicit item.
    (&[0x08, 3, 9, 9], 4, 5, 1, 3),
    (&[0x08, 1], 2, 5, 1, 1),
    // Repeated items.
    (&[0x04, 2, 1, 2, 3, 4], 6, 6, 1, 5),
    (&[0x04, 0], 2, 6, 1, 1),
    // Compound items: subfields 1 and 3; none; subfield 8, by the second primary octet.
    (&[0x02, 0xA0, 1, 2, 3, 4], 6, 7, 1, 5),
    (&[0x02, 0], 2, 7, 1, 1),
    (&[0x02, 0x01, 0x80, 1, 2, 3, 4], 7, 7, 1, 6),
    // A repeated subfield.
    (&TWO_GROUPS, 33, 7, 1, 32),
    (&[0x02, 0x40, 0], 3, 7, 1, 2),
    // Three items in one record.
    (&THREE, 7, 1, 1, 2),
    (&THREE, 7, 2, 3, 0),
    (&THREE, 7, 3, 3, 2),
    (&THREE, 7, 6, 5, 0),
    (&THREE, 7, 7, 5, 2),
];

/// Octets that begin no record, and their first faults.
const FAULTS: [(&[u8], ItemFault); 18] = [
    (&[], ItemFault::PastEnd(0)),
    (&[1, 1], ItemFault::PastEnd(0)),
    (&[0x80], ItemFault::PastEnd(1)),
    (&[0xC0], ItemFault::PastEnd(1)),
    (&[0x40], ItemFault::SpareItem(2)),
    (&[1, 1, 1, 1, 1], ItemFault::LongFspec),
    (&[0x10, 0, 0, 1], ItemFault::PastEnd(4)),
    (&[0x08, 3, 0], ItemFault::PastEnd(5)),
    (&[0x08, 0], ItemFault::ZeroLength(5)),
    (&[0x04, 2, 1, 2, 3], ItemFault::PastEnd(6)),
    (&[2], ItemFault::PastEnd(7)),
    (&[2, 1], ItemFault::PastEnd(7)),
    (&[2, 0x80], ItemFault::PastEnd(7)),
    // Subfield 9 of eight, before the octet that its primary octet asks for.
    (&[2, 1, 0x41], ItemFault::SpareSubfield(7, 9)),
    (&[2, 1, 1, 1, 1, 1, 0], ItemFault::SpareSubfield(7, 36)),
    (&[0xA2, 9, 9, 1, 0, 0x20], ItemFault::PastEnd(7)),
    (&[0x01, 0x80], ItemFault::SpareItem(8)),
    (&[1, 1, 1, 1, 2], ItemFault::SpareItem(35)),
];

#[test]
fn records_by_a_small_table(rt: HostRuntime) {
    for (bytes, length, frn, at, len) in RECORDS.iter() {
        assert!(rt; bytes.len() <= BLOCK_ROOM && *frn >= 1 && *frn <= 7);
        match walk(&ITEMS, &SUBFIELDS, bytes) {
            Ok(found) => {
                assert_eq!(rt; found.length, *length, "the length of {bytes:?}");
                let (at, len) = (*at, *len);
                assert_eq!(rt;
                    found.spans[*frn - 1],
                    Span { at, len },
                    "item {frn} of {bytes:?}"
                );
            }
            Err(fault) => panic!(rt; "{fault} in {bytes:?}"),
        }
    }
}

#[test]
fn octets_that_begin_no_record(rt: HostRuntime) {
    for (bytes, fault) in FAULTS.iter() {
        assert!(rt; bytes.len() <= BLOCK_ROOM);
        match walk(&ITEMS, &SUBFIELDS, bytes) {
            Ok(_) => panic!(rt; "a record in {bytes:?}"),
            Err(found) => assert_eq!(rt; found, *fault, "of {bytes:?}"),
        }
    }
}

/// One list of places for three texts: a record writes over the places of the one before, and a fault is told beside them.
#[test]
fn places_of_one_record_after_another(rt: HostRuntime) {
    let texts: [(&[u8], Result<u32, ItemFault>, u32, u32); 3] = [
        (&[0x80, 0x19, 0x0A], Ok(3), 2, 3),
        (&[0], Ok(1), 0, 1),
        (&[0x40], Err(ItemFault::SpareItem(2)), 0, 1),
    ];
    let mut spans = [Span { at: 0, len: 0 }; 7];
    for (bytes, answer, len, end) in texts {
        assert!(rt; bytes.len() <= BLOCK_ROOM);
        let found = find_items(&ITEMS, &SUBFIELDS, bytes, &mut spans);
        assert_eq!(rt; found, answer);
        if found.is_ok() {
            assert_eq!(rt; spans[0], Span { at: 1, len });
            assert_eq!(rt; spans[6], Span { at: end, len: 0 });
        }
    }
}

/// Tables of one item over two rows of subfields, a fixed and an explicit one, and whether they are well formed.
const FORMS: [(Form, bool); 7] = [
    (Repeat(0), true),
    (Compound { first: 0, count: 1 }, true),
    (Fixed(0), false),
    (Extended(0), false),
    (Compound { first: 0, count: 2 }, false),
    (Compound { first: 1, count: 2 }, false),
    (Compound { first: 2, count: 1 }, false),
];

#[test]
fn tables_that_are_well_formed(rt: HostRuntime) {
    let rows = Subs([Fixed(1), Explicit]);
    for (form, accepted) in FORMS.iter() {
        assert_eq!(rt;
            well_formed(&Uap([*form]), &rows),
            *accepted,
            "a table of {form:?}"
        );
    }
    assert!(rt; well_formed(&ITEMS, &SUBFIELDS));
    assert!(rt; well_formed(&Uap([Spare; MOST_ITEMS]), &SUBFIELDS));
    // More than five octets name.
    assert!(rt; !well_formed(&Uap([Spare; 36]), &SUBFIELDS));
}

#[test]
fn numbers_of_fields(rt: HostRuntime) {
    assert_eq!(rt; be16([0x12, 0x34]), 4660);
    assert_eq!(rt; be24([0x46, 0x50, 0x00]), 4_608_000);
    assert_eq!(rt; be32([0, 0, 3, 0xE8]), 1000);
    assert_eq!(rt; signed16([0xFF, 0xFE]), -2);
    assert_eq!(rt; signed24([0x80, 0, 0]), -8_388_608);
    assert_eq!(rt; signed24([0x7F, 0xFF, 0xFF]), 8_388_607);
    assert_eq!(rt; signed32([0xFF, 0xFF, 0xFF, 0xFF]), -1);
    assert_eq!(rt; put16(4660), [0x12, 0x34]);
    assert_eq!(rt; put24(4_608_000), [0x46, 0x50, 0x00]);
    assert_eq!(rt; put32(1000), [0, 0, 3, 0xE8]);
}
