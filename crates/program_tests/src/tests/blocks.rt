//! Messages in blocks: 35 in each but the last.

use super::outside::{Outside, expect_octets, replayed};
use super::plots::{HEAD_ON, Plot};
use std::alloc::{AllocError, Global};
use std::test::Fail;

/// The lengths of the blocks of an output.
fn lengths(alloc: Global, out: &[u8]) -> Result<Vec<usize>, AllocError> {
    let mut lengths = Vec::new(alloc);
    let mut rest = out;
    for _ in 0..out.len() {
        let [4, high, low, ..] = rest else {
            break;
        };
        let length = usize::from(u16::from_be_bytes([*high, *low]));
        if length < 3 || length > rest.len() {
            break;
        }
        lengths.push(length)?;
        rest = &rest[length..];
    }
    Ok(lengths)
}

/// Nine tracks at one place: 36 messages. The last, which stands alone in its block, is of tracks 0108 and 0109.
#[test]
fn one_message_more_than_a_block_has(rt: HostRuntime) -> Result<(), Fail> {
    let alloc = rt.alloc();
    let mut feed = Vec::new(alloc);
    for number in 0x0101..0x010au16 {
        let plot = Plot {
            number: Some(number),
            ..HEAD_ON
        };
        feed.append(&mut plot.block(alloc)?)?;
    }
    let ran = replayed(alloc, Outside::of(&feed))?;
    expect_octets(&rt, &ran, 0, 1410, "36 messages");
    assert!(rt; lengths(alloc, &ran.out)?.as_slice() == [1368, 42].as_slice());
    let first = [
        0x04, 0x05, 0x58, 0xdd, 0x91, 0x42, 0x19, 0x64, 0x07, 0x46, 0x52, 0x00, 0x00, 0x00, 0x02,
        0x01, 0x01,
    ];
    let last = [
        0x04, 0x00, 0x2a, 0xdd, 0x91, 0x42, 0x19, 0x64, 0x07, 0x46, 0x52, 0x00, 0x00, 0x23, 0x02,
        0x01, 0x08, 0xfc, 0x00, 0x00, 0x00, 0x00, 0x00, 0x00, 0x00, 0x00, 0x00, 0x00, 0x00, 0x00,
        0x00, 0x00, 0x00, 0x01, 0x09, 0x07, 0x07, 0x19, 0x0a, 0x19, 0x0a, 0x03,
    ];
    assert!(rt; ran.out.starts_with(&first));
    assert!(rt; ran.out.ends_with(&last));
    Ok(())
}
