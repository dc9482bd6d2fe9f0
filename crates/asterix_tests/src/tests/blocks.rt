//! Feeds cut in pieces, each answer worked out by hand from the octets.
ghost use Rattle.std.specs.Prelude.{◌≤◌, ◌<◌, length};

use asterix_blocks::{Cutter, End, Framed, NoMemory, frame, frame_pieces, take_blocks};
use asterix_fields::sizes::HEADER_LENGTH;
use std::alloc::Global;
use std::process::Abort;
use std::test::Fail;

/// Two blocks of category 62, of 28 octets each.
const TWO_TRACKS: [u8; 56] = [
    0x3E, 0x00, 0x1C, 0x97, 0x0D, 0x24, 0x19, 0x0A, 0x46, 0x51, 0x00, 0x00, 0x00, 0x00, 0x00, 0x00,
    0x00, 0x03, 0xE8, 0x00, 0x00, 0x01, 0x01, 0x00, 0x05, 0x28, 0x00, 0x00, 0x3E, 0x00, 0x1C, 0x97,
    0x0D, 0x24, 0x19, 0x0A, 0x46, 0x51, 0x00, 0x00, 0x27, 0x10, 0x00, 0x00, 0x00, 0xFC, 0x18, 0x00,
    0x00, 0x01, 0x02, 0x00, 0x05, 0x30, 0x00, 0x00,
];

/// Blocks of categories 34, 0, 255 and 62, one of them a header alone.
const OTHERS: [u8; 19] = [
    0x22, 0x00, 0x05, 0xAA, 0xBB, 0x00, 0x00, 0x03, 0xFF, 0x00, 0x04, 0x3E, 0x3E, 0x00, 0x07, 0x01,
    0x02, 0x03, 0x04,
];

/// A block by its offset, its category and the length of its body.
#[derive(Clone, Copy)]
struct Shape(u64, u8, usize);

const TWO_SHAPES: [Shape; 2] = [Shape(0, 62, 25), Shape(28, 62, 25)];

/// The feed has these blocks, with the octets that stand there, and ends so.
fn expect_framed(rt: &impl Abort, feed: &[u8], framed: &Framed, shapes: &[Shape], end: End) {
    assert_eq!(rt; framed.end, end, "the end of {feed:?}");
    assert_eq!(rt; framed.blocks.len(), shapes.len(), "the blocks of {feed:?}");
    for (block, shape) in framed.blocks.iter().zip(shapes) {
        assert_eq!(rt; block.offset, shape.0, "an offset in {feed:?}");
        assert_eq!(rt; block.category, shape.1, "the category at {}", shape.0);
        assert_eq!(rt; block.body.len(), shape.2, "the length at {}", shape.0);
        assert!(rt; shape.0 < 1000 && shape.2 < 1000);
        let start = shape.0 as usize + HEADER_LENGTH;
        assert!(rt; start + shape.2 <= feed.len());
        let body = &feed[start..start + shape.2];
        assert_eq!(rt; block.body.as_slice(), body, "the body at {}", shape.0);
    }
}

/// Frames a feed that comes in pieces of so many octets.
fn frame_by(alloc: Global, feed: &[u8], size: usize) -> Result<Framed, NoMemory>
    requires few { length feed.now ≤ 4000000 }
    requires some { 0 < size }
{
    let mut cutter = Cutter::new(alloc)?;
    let mut blocks = Vec::new(alloc);
    let mut at = 0;
    while at < feed.len() {
        let rest = &feed[at..];
        let piece = &rest[..rest.len().min(size)];
        cutter.feed(piece)?;
        take_blocks(&mut cutter, &mut blocks)?;
        at += piece.len();
    }
    Ok(Framed {
        blocks,
        end: cutter.finish(),
    })
}

/// The feed has these blocks and ends so, all at once, in any two pieces, and in small ones.
fn expect_blocks(
    rt: &impl Abort,
    alloc: Global,
    feed: &[u8],
    shapes: &[Shape],
    end: End,
) -> Result<(), NoMemory> {
    assert!(rt; feed.len() < 1000);
    expect_framed(rt, feed, &frame(alloc, feed)?, shapes, end);
    for cut in 0..feed.len() + 1 {
        let framed = frame_pieces(alloc, &[&feed[..cut], &feed[cut..]])?;
        expect_framed(rt, feed, &framed, shapes, end);
    }
    for size in 1..9 {
        expect_framed(rt, feed, &frame_by(alloc, feed, size)?, shapes, end);
    }
    Ok(())
}

/// Both tracks, and then a bad length and a whole block.
const BAD_LENGTH_BETWEEN: [u8; 62] = [
    0x3E, 0x00, 0x1C, 0x97, 0x0D, 0x24, 0x19, 0x0A, 0x46, 0x51, 0x00, 0x00, 0x00, 0x00, 0x00, 0x00,
    0x00, 0x03, 0xE8, 0x00, 0x00, 0x01, 0x01, 0x00, 0x05, 0x28, 0x00, 0x00, 0x3E, 0x00, 0x1C, 0x97,
    0x0D, 0x24, 0x19, 0x0A, 0x46, 0x51, 0x00, 0x00, 0x27, 0x10, 0x00, 0x00, 0x00, 0xFC, 0x18, 0x00,
    0x00, 0x01, 0x02, 0x00, 0x05, 0x30, 0x00, 0x00, 0x3E, 0x00, 0x02, 0x3E, 0x00, 0x03,
];

/// Feeds, their blocks, and how they end.
const FEEDS: [(&[u8], &[Shape], End); 14] = [
    (&[], &[], End::Clean),
    (&[0x3E], &[], End::Truncated(0)),
    (&[0x3E, 0x00], &[], End::Truncated(0)),
    (&[0x3E, 0x00, 0x00], &[], End::BadLength(0)),
    (&[0x3E, 0x00, 0x02], &[], End::BadLength(0)),
    (&[0x3E, 0x00, 0x03], &[Shape(0, 62, 0)], End::Clean),
    (&[0x3E, 0x00, 0x04], &[], End::Truncated(0)),
    (&[0x3E, 0x01, 0x03, 0x04], &[], End::Truncated(0)),
    (
        &[0x3E, 0x00, 0x02, 0x22, 0x00, 0x03],
        &[],
        End::BadLength(0),
    ),
    (
        &[0x22, 0x00, 0x03, 0x22, 0x00, 0x02, 0x22, 0x00, 0x03],
        &[Shape(0, 34, 0)],
        End::BadLength(3),
    ),
    (
        &[0x22, 0x00, 0x03, 0x22, 0x00],
        &[Shape(0, 34, 0)],
        End::Truncated(3),
    ),
    (
        &OTHERS,
        &[
            Shape(0, 34, 2),
            Shape(5, 0, 0),
            Shape(8, 255, 1),
            Shape(12, 62, 4),
        ],
        End::Clean,
    ),
    (&TWO_TRACKS, &TWO_SHAPES, End::Clean),
    (&BAD_LENGTH_BETWEEN, &TWO_SHAPES, End::BadLength(56)),
];

#[test]
fn feeds_and_their_ends(rt: HostRuntime) -> Result<(), Fail> {
    for (feed, shapes, end) in FEEDS.iter() {
        expect_blocks(&rt, rt.alloc(), feed, shapes, *end)?;
    }
    // Two tracks and a bad length alone.
    let feed = &BAD_LENGTH_BETWEEN[..59];
    expect_blocks(&rt, rt.alloc(), feed, &TWO_SHAPES, End::BadLength(56))?;
    // Cut off in the second block.
    for kept in 29..56 {
        let feed = &TWO_TRACKS[..kept];
        expect_blocks(
            &rt,
            rt.alloc(),
            feed,
            &[Shape(0, 62, 25)],
            End::Truncated(28),
        )?;
    }
    Ok(())
}

#[test]
fn other_categories_between_and_a_long_block(rt: HostRuntime) -> Result<(), Fail> {
    let mut feed = Vec::from_slice(rt.alloc(), &TWO_TRACKS[..28])?;
    feed.extend_from_slice(&OTHERS)?;
    feed.extend_from_slice(&[0x01, 0x01, 0x04])?;
    for count in 0..257u16 {
        feed.push((count % 251) as u8)?;
    }
    feed.extend_from_slice(&TWO_TRACKS[28..])?;
    let shapes = [
        Shape(0, 62, 25),
        Shape(28, 34, 2),
        Shape(33, 0, 0),
        Shape(36, 255, 1),
        Shape(40, 62, 4),
        Shape(47, 1, 257),
        Shape(307, 62, 25),
    ];
    expect_blocks(&rt, rt.alloc(), &feed, &shapes, End::Clean)?;
    Ok(())
}

#[test]
fn blocks_are_given_once_they_are_whole(rt: HostRuntime) -> Result<(), Fail> {
    let mut cutter = Cutter::new(rt.alloc())?;
    assert!(rt; cutter.next()?.is_none());
    cutter.feed(&TWO_TRACKS[..27])?;
    assert!(rt; cutter.next()?.is_none());
    cutter.feed(&TWO_TRACKS[27..28])?;
    let first = cutter.next()?.ok_or("no first block")?;
    assert_eq!(rt; first.offset, 0);
    assert_eq!(rt; first.body.into_vec().as_slice(), &TWO_TRACKS[3..28]);
    cutter.feed(&[])?;
    assert!(rt; cutter.next()?.is_none());
    cutter.feed(&TWO_TRACKS[28..])?;
    let second = cutter.next()?.ok_or("no second block")?;
    assert_eq!(rt; second.offset, 28);
    assert!(rt; cutter.next()?.is_none());
    Ok(())
}

#[test]
fn a_bad_length_behind_a_block_that_is_held(rt: HostRuntime) -> Result<(), Fail> {
    let mut cutter = Cutter::new(rt.alloc())?;
    cutter.feed(&TWO_TRACKS[..28])?;
    cutter.feed(&[0x3E, 0x00])?;
    assert!(rt; !cutter.has_bad_length());
    cutter.feed(&[0x02])?;
    assert!(rt; !cutter.has_bad_length());
    assert!(rt; cutter.next()?.is_some());
    assert!(rt; cutter.has_bad_length());
    assert!(rt; cutter.next()?.is_none());
    assert_eq!(rt; cutter.finish(), End::BadLength(28));
    Ok(())
}

#[test]
fn an_end_told_with_blocks_held(rt: HostRuntime) -> Result<(), Fail> {
    let mut cutter = Cutter::new(rt.alloc())?;
    cutter.feed(&TWO_TRACKS[..40])?;
    assert_eq!(rt; cutter.finish(), End::Truncated(28));
    Ok(())
}

/// A million blocks at once, in pieces of 64 KiB and octet by octet.
#[test]
fn a_long_feed_of_short_blocks(rt: HostRuntime) -> Result<(), Fail> {
    let mut feed = Vec::new(rt.alloc());
    for _ in 0..1_000_000 {
        feed.extend_from_slice(&[0x22, 0x00, 0x03])?;
    }
    assert!(rt; feed.len() < 4_000_000);
    for size in [1, 65_536, 4_000_000] {
        let framed = frame_by(rt.alloc(), &feed, size)?;
        assert_eq!(rt; framed.blocks.len(), 1_000_000, "in pieces of {size}");
        assert_eq!(rt; framed.end, End::Clean);
    }
    Ok(())
}
