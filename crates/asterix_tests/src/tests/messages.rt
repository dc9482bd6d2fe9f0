//! Messages and blocks, as worked out by hand from the layout.
ghost use Rattle.std.specs.Prelude.{IfSome};
ghost use Rattle.std.specs.Bool.{OnTrue};
ghost use Rattle.alert_states.specs.Figures.{FitsOctets};

use cat004_write::{
    BELOW, CURRENT_PROXIMITY, Event, HitData, MESSAGE_ROOM, Message, Net, Packer, RIGHT, Status,
    Subject, URGENT, write_event,
};
use std::test::Fail;
use track_motion::{TICKS_PER_DAY, TrackKey};

/// The source that sends: SAC 25, SIC 100.
const SAC: u8 = 25;

const SIC: u8 = 100;

/// The first cycle's time is 36,004 s, and each next one's four seconds more.
const FIRST_CYCLE: i64 = 4_608_512;

const PERIOD: i64 = 512;

const NO_TRACK: TrackKey = TrackKey {
    sac: 0,
    sic: 0,
    number: 0,
};

const TRACK: TrackKey = TrackKey {
    sac: 25,
    sic: 10,
    number: 0x0101,
};

const OTHER: TrackKey = TrackKey {
    number: 0x0102,
    ..TRACK
};

/// A pair in STCA.
const PAIR: Subject = Subject {
    net: Net::Stca,
    key: TRACK,
    other: OTHER,
    object: 0,
};

/// A track alone, for the other nets.
const SINGLE: Subject = Subject {
    net: Net::Msaw,
    key: TRACK,
    other: NO_TRACK,
    object: 0,
};

/// The pair at 4,000 m and 200 ft that meets in 8 s.
const MEETING: HitData = HitData {
    first: 0,
    closest: 1024,
    chs: 8000,
    mhs: 0,
    cvs: 8,
    mvs: 8,
    flags: URGENT + CURRENT_PROXIMITY,
};

/// A hit outside STCA, with no time to the conflict.
const NOW: HitData = HitData {
    first: 0,
    closest: 0,
    chs: 0,
    mhs: 0,
    cvs: 0,
    mvs: 0,
    flags: URGENT,
};

/// The pair's first alert.
const FIRST: Event = Event {
    subject: PAIR,
    status: Status::First,
    id: 0,
    hit: Some(MEETING),
};

/// Events, the ticks of their cycles' times behind the first one's, and their messages.
const MESSAGES: [(Event, i64, &[u8]); 8] = [
    // A pair with its figures.
    (
        FIRST,
        0,
        &[
            0xDD, 0x91, 0x42, 0x19, 0x64, 0x07, 0x46, 0x52, 0x00, 0x00, 0x00, 0x02, 0x01, 0x01,
            0xFC, 0x00, 0x00, 0x00, 0x00, 0x04, 0x00, 0x00, 0x1F, 0x40, 0x00, 0x00, 0x00, 0x08,
            0x00, 0x08, 0x01, 0x02, 0x07, 0x07, 0x19, 0x0A, 0x19, 0x0A, 0x03,
        ],
    ),
    // A pair without a hit, in the next cycle.
    (
        Event {
            status: Status::Continuing,
            hit: None,
            ..FIRST
        },
        PERIOD,
        &[
            0xDD, 0x81, 0x42, 0x19, 0x64, 0x07, 0x46, 0x54, 0x00, 0x00, 0x00, 0x04, 0x01, 0x01,
            0x01, 0x02, 0x07, 0x07, 0x19, 0x0A, 0x19, 0x0A, 0x00,
        ],
    ),
    // A pair that has ended.
    (
        Event {
            status: Status::Ended,
            hit: None,
            ..FIRST
        },
        3 * PERIOD,
        &[
            0xDD, 0x81, 0x42, 0x19, 0x64, 0x07, 0x46, 0x58, 0x00, 0x00, 0x00, 0x06, 0x01, 0x01,
            0x01, 0x02, 0x07, 0x07, 0x19, 0x0A, 0x19, 0x0A, 0x00,
        ],
    ),
    // 256 ticks after midnight.
    (
        Event {
            hit: Some(HitData {
                closest: 0x03E2,
                chs: 0x1E55,
                ..MEETING
            }),
            ..FIRST
        },
        TICKS_PER_DAY as i64 + 256 - FIRST_CYCLE,
        &[
            0xDD, 0x91, 0x42, 0x19, 0x64, 0x07, 0x00, 0x01, 0x00, 0x00, 0x00, 0x02, 0x01, 0x01,
            0xFC, 0x00, 0x00, 0x00, 0x00, 0x03, 0xE2, 0x00, 0x1E, 0x55, 0x00, 0x00, 0x00, 0x08,
            0x00, 0x08, 0x01, 0x02, 0x07, 0x07, 0x19, 0x0A, 0x19, 0x0A, 0x03,
        ],
    ),
    // A track too low.
    (
        Event {
            subject: SINGLE,
            id: 5,
            hit: Some(HitData { first: 513, ..NOW }),
            ..FIRST
        },
        0,
        &[
            0xDD, 0x91, 0x02, 0x19, 0x64, 0x04, 0x46, 0x52, 0x00, 0x00, 0x05, 0x02, 0x01, 0x01,
            0x80, 0x00, 0x02, 0x01, 0x07, 0x04, 0x19, 0x0A, 0x00, 0x00, 0x01,
        ],
    ),
    // A track in the first volume.
    (
        Event {
            subject: Subject {
                net: Net::Apw,
                ..SINGLE
            },
            hit: Some(NOW),
            ..FIRST
        },
        0,
        &[
            0xDD, 0x91, 0x02, 0x19, 0x64, 0x05, 0x46, 0x52, 0x00, 0x00, 0x00, 0x02, 0x01, 0x01,
            0x80, 0x00, 0x00, 0x00, 0x07, 0x05, 0x19, 0x0A, 0x00, 0x00, 0x01,
        ],
    ),
    // A track that left a volume.
    (
        Event {
            subject: Subject {
                net: Net::Apw,
                object: 0x0203,
                ..SINGLE
            },
            status: Status::Ended,
            id: 0x0102,
            hit: None,
        },
        0,
        &[
            0xDD, 0x81, 0x02, 0x19, 0x64, 0x05, 0x46, 0x52, 0x00, 0x01, 0x02, 0x06, 0x01, 0x01,
            0x07, 0x05, 0x19, 0x0A, 0x02, 0x03, 0x00,
        ],
    ),
    // A track below and right of a funnel.
    (
        Event {
            subject: Subject {
                net: Net::Apm,
                object: 0x0203,
                ..SINGLE
            },
            status: Status::Continuing,
            id: 0xFFFE,
            hit: Some(HitData {
                flags: BELOW + RIGHT,
                ..NOW
            }),
        },
        0,
        &[
            0xDD, 0x91, 0x02, 0x19, 0x64, 0x08, 0x46, 0x52, 0x00, 0xFF, 0xFE, 0x04, 0x01, 0x01,
            0x80, 0x00, 0x00, 0x00, 0x07, 0x08, 0x19, 0x0A, 0x02, 0x03, 0x24,
        ],
    ),
];

/// Whether a message has octets for these figures.
fn fits(hit: &Option<HitData>) -> bool
    ensures { OnTrue result (IfSome hit.now FitsOctets) }
{
    match hit {
        Some(hit) => hit.first < 1 << 24 && hit.closest < 1 << 24 && hit.chs < 1 << 24,
        None => true,
    }
}

#[test]
fn messages_of_events(rt: HostRuntime) {
    for (e, after, want) in MESSAGES.iter() {
        assert!(rt; *after >= 0 && *after <= i64::from(TICKS_PER_DAY));
        assert!(rt; fits(&e.hit));
        let m = write_event(e, FIRST_CYCLE + *after, SAC, SIC);
        let octets = &m.bytes[..m.len as usize];
        assert_eq!(rt; octets, *want, "of {e:?}");
    }
}
/// The blocks of so many messages of 39 octets, numbered from 0.
fn blocks_of(packer: &mut Packer, count: u16) -> Result<Vec<u8>, Fail> {
    for id in 0..count {
        let e = Event { id, ..FIRST };
        packer.push(&write_event(&e, FIRST_CYCLE, SAC, SIC))?;
    }
    Ok(packer.take())
}

/// 35 messages of 39 octets have room in a block.
#[test]
fn blocks_of_first_messages(rt: HostRuntime) -> Result<(), Fail> {
    let mut packer = Packer::new(rt.alloc());
    assert_eq!(rt; blocks_of(&mut packer, 0)?.len(), 0);

    let one = blocks_of(&mut packer, 35)?;
    assert_eq!(rt; one.len(), 1368);
    assert_eq!(rt; &one[..4], [0x04, 0x05, 0x58, 0xDD].as_slice());

    let two = blocks_of(&mut packer, 36)?;
    assert_eq!(rt; two.len(), 1410);
    assert_eq!(rt; &two[..4], [0x04, 0x05, 0x58, 0xDD].as_slice());
    assert_eq!(rt; &two[1338..1341], [0x00, 0x22, 0x02].as_slice());
    assert_eq!(rt; &two[1368..1372], [0x04, 0x00, 0x2A, 0xDD].as_slice());
    assert_eq!(rt; &two[1380..1383], [0x00, 0x23, 0x02].as_slice());
    assert_eq!(rt; packer.take().len(), 0);

    let three = blocks_of(&mut packer, 71)?;
    assert_eq!(rt; three.len(), 2778);
    assert_eq!(rt; &three[1368..1371], [0x04, 0x05, 0x58].as_slice());
    assert_eq!(rt; &three[2736..2739], [0x04, 0x00, 0x2A].as_slice());
    Ok(())
}

/// Memory that was taken ahead is for as many messages. It is asked for again where it was refused, which
/// leaves the packer as it was.
#[test]
fn memory_taken_ahead(rt: HostRuntime) -> Result<(), Fail> {
    let mut packer = Packer::new(rt.alloc());
    if packer.reserve(36).is_err() {
        packer.reserve(36)?;
    }
    assert_eq!(rt; blocks_of(&mut packer, 36)?.len(), 1410);
    assert_eq!(rt; packer.take().len(), 0);
    Ok(())
}

/// More memory than there can be.
#[test]
fn refused_memory_leaves_the_messages(rt: HostRuntime) -> Result<(), Fail> {
    let mut packer = Packer::new(rt.alloc());
    packer.push(&write_event(&FIRST, FIRST_CYCLE, SAC, SIC))?;
    for messages in [u64::MAX, 1 << 57] {
        assert!(rt; packer.reserve(messages).is_err());
    }
    let blocks = packer.take();
    assert_eq!(rt; blocks.len(), 42);
    assert_eq!(rt; &blocks[..4], [0x04, 0x00, 0x2A, 0xDD].as_slice());
    Ok(())
}

/// 21 messages of 64 octets and one more: a block is full at 1,400 octets, and a message of none
/// opens no other.
#[test]
fn a_full_block(rt: HostRuntime) -> Result<(), Fail> {
    let mut packer = Packer::new(rt.alloc());
    for (len, whole, last_length) in [(53, 1400, 0x78), (54, 1404, 0x43)] {
        for _ in 0..21 {
            packer.push(&Message {
                bytes: [7; MESSAGE_ROOM],
                len: 64,
            })?;
        }
        packer.push(&Message {
            bytes: [9; MESSAGE_ROOM],
            len,
        })?;
        packer.push(&Message {
            bytes: [5; MESSAGE_ROOM],
            len: 0,
        })?;
        let blocks = packer.take();
        assert_eq!(rt; blocks.len(), whole);
        assert_eq!(rt; blocks[2], last_length);
        assert_eq!(rt; blocks[1347], if len == 53 { 9 } else { 4 });
    }
    Ok(())
}
