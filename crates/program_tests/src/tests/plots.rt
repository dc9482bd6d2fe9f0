//! Records of category 062 by their items.
ghost use Rattle.std.specs.Prelude.{◌≤◌};

use super::feeds::{FIRST, SECOND, TRACKER, block_of};
use std::alloc::{AllocError, Global};
use std::test::Fail;

/// The items of a record. One that is `None` isn't there.
#[derive(Clone, Copy)]
pub struct Plot {
    /// 010: the system area code and the system identification code.
    pub source: Option<(u8, u8)>,
    /// 040: the track number.
    pub number: Option<u16>,
    /// 070: the time of day in 1/128 s.
    pub time: Option<u32>,
    /// 100: X and Y in 0.5 m.
    pub place: Option<(i32, i32)>,
    /// 185: Vx and Vy in 0.25 m/s.
    pub speed: Option<(i16, i16)>,
    /// 060: the Mode 3/A code, with four bits above it.
    pub code: Option<u16>,
    /// 080: the first octet and its extensions.
    pub status: Option<&'static [u8]>,
    /// 136 in 25 ft.
    pub level: Option<i16>,
    /// 135: whether QNH correction is applied, and the altitude in 25 ft.
    pub barometric: Option<(bool, i16)>,
    /// 220 in 6.25 ft/min, climb positive.
    pub rate: Option<i16>,
}

/// The record of the block `FIRST`: a track at the origin that flies east at 33,000 ft.
pub const HEAD_ON: Plot = Plot {
    source: Some((25, 10)),
    number: Some(0x0101),
    time: Some(36_002 * 128),
    place: Some((0, 0)),
    speed: Some((1000, 0)),
    code: None,
    status: Some(&[0]),
    level: Some(1320),
    barometric: None,
    rate: Some(0),
};

/// A track of this number at rest on the X axis at 33,000 ft, one tick before the cycle's end.
pub fn at_rest(number: u16, x: i32) -> Plot {
    Plot {
        number: Some(number),
        time: Some(4_608_511),
        place: Some((x, 0)),
        speed: Some((0, 0)),
        ..HEAD_ON
    }
}

impl Plot {
    /// The octets of the record.
    pub fn record(&self, alloc: Global) -> Result<Vec<u8>, AllocError> {
        let mut record = Record::new(alloc);
        if let Some((area, system)) = self.source {
            record.add(1, &[area, system])?;
        }
        if let Some(time) = self.time {
            let [_, a, b, c] = time.to_be_bytes();
            record.add(4, &[a, b, c])?;
        }
        if let Some((x, y)) = self.place {
            let [_, a, b, c] = x.to_be_bytes();
            let [_, d, e, f] = y.to_be_bytes();
            record.add(6, &[a, b, c, d, e, f])?;
        }
        if let Some((x, y)) = self.speed {
            let [a, b] = x.to_be_bytes();
            let [c, d] = y.to_be_bytes();
            record.add(7, &[a, b, c, d])?;
        }
        if let Some(code) = self.code {
            record.add(9, &code.to_be_bytes())?;
        }
        if let Some(number) = self.number {
            record.add(12, &number.to_be_bytes())?;
        }
        if let Some(status) = self.status {
            record.add(13, status)?;
        }
        if let Some(level) = self.level {
            record.add(17, &level.to_be_bytes())?;
        }
        if let Some((is_corrected, altitude)) = self.barometric {
            let correction = if is_corrected { 0x8000 } else { 0 };
            let word = correction | (altitude.cast_unsigned() & 0x7fff);
            record.add(19, &word.to_be_bytes())?;
        }
        if let Some(rate) = self.rate {
            record.add(20, &rate.to_be_bytes())?;
        }
        record.octets(alloc)
    }

    /// The record with item 2 named besides, which the category hasn't.
    pub fn with_spare_item(&self, alloc: Global) -> Result<Vec<u8>, AllocError> {
        let mut octets = self.record(alloc)?;
        if let Some(first) = octets.first_mut() {
            *first |= 0x40;
        }
        Ok(octets)
    }

    /// A block of this record alone.
    pub fn block(&self, alloc: Global) -> Result<Vec<u8>, AllocError> {
        block_of(alloc, &[&self.record(alloc)?])
    }
}

/// A record as it is written: which items are there, and what they say.
#[derive(Drop)]
struct Record {
    fspec: [u8; 3],
    items: Vec<u8>,
}

impl Record {
    /// A record of no items. Bit 1 of an FSPEC octet says that another follows.
    fn new(alloc: Global) -> Record {
        Record {
            fspec: [1, 1, 0],
            items: Vec::new(alloc),
        }
    }

    /// Adds an item. Bits 8 to 2 of the j-th FSPEC octet stand for the FRNs 7(j-1)+1 to 7j.
    fn add(&mut self, frn: usize, item: &[u8]) -> Result<(), AllocError>
        requires from_one { 1 ≤ frn }
        requires three_octets { frn ≤ 21 }
    {
        self.fspec[(frn - 1) / 7] |= 0x80 >> ((frn - 1) % 7);
        self.items.extend_from_slice(item)
    }

    /// The FSPEC and the items behind it.
    fn octets(mut self, alloc: Global) -> Result<Vec<u8>, AllocError> {
        let mut octets = self.fspec.to_vec(alloc)?;
        octets.append(&mut self.items)?;
        Ok(octets)
    }
}

/// The plot of the block `SECOND`.
const OPPOSITE: Plot = Plot {
    number: Some(0x0102),
    place: Some((10_000, 0)),
    speed: Some((-1000, 0)),
    level: Some(1328),
    ..HEAD_ON
};

#[test]
fn plots_of_the_first_two_blocks(rt: HostRuntime) -> Result<(), Fail> {
    let alloc = rt.alloc();
    for (plot, block) in [(HEAD_ON, FIRST), (OPPOSITE, SECOND)] {
        assert!(rt; plot.block(alloc)?.as_slice() == block.as_slice());
    }
    Ok(())
}

/// Some records of a tracker's feed, by where they stand in it.
#[test]
fn plots_of_a_trackers_records(rt: HostRuntime) -> Result<(), Fail> {
    let slow = Plot {
        speed: Some((800, 0)),
        rate: None,
        ..HEAD_ON
    };
    let opposite = Plot {
        speed: Some((-800, 0)),
        level: None,
        ..slow
    };
    let barometric = Plot {
        number: Some(0x0102),
        place: Some((4400, 3600)),
        barometric: Some((false, 1312)),
        ..opposite
    };
    let tentative = Plot {
        number: Some(0x0103),
        status: Some(&[0x02]),
        ..slow
    };
    let corrected = Plot {
        number: Some(0x0104),
        time: Some(0x46_4e00),
        place: Some((6800, 1400)),
        barometric: Some((true, 1316)),
        ..opposite
    };
    let ended = Plot {
        number: Some(0x0105),
        status: Some(&[0x01, 0x40]),
        ..slow
    };
    let coded = Plot {
        number: Some(0x0107),
        code: Some(0o7000),
        ..slow
    };
    let cases: [(Plot, &[u8]); 5] = [
        (barometric, &TRACKER[59..82]),
        (tentative, &TRACKER[82..105]),
        (corrected, &TRACKER[120..143]),
        (ended, &TRACKER[143..167]),
        (coded, &TRACKER[193..218]),
    ];
    for (plot, octets) in cases {
        assert!(rt; plot.record(rt.alloc())?.as_slice() == octets);
    }
    Ok(())
}

#[test]
fn a_plot_of_two_items(rt: HostRuntime) -> Result<(), Fail> {
    let plot = Plot {
        source: None,
        number: None,
        time: None,
        place: None,
        speed: None,
        status: None,
        level: Some(-2),
        rate: Some(-1),
        ..HEAD_ON
    };
    let octets = [0x01, 0x01, 0x24, 0xff, 0xfe, 0xff, 0xff];
    assert!(rt; plot.record(rt.alloc())?.as_slice() == octets.as_slice());
    Ok(())
}

#[test]
fn a_plot_with_a_spare_item(rt: HostRuntime) -> Result<(), Fail> {
    let spare = HEAD_ON.with_spare_item(rt.alloc())?;
    assert!(rt; spare.starts_with(&[0xd7, 0x0d, 0x24]));
    assert!(rt; spare.ends_with(&FIRST[6..]));
    assert_eq!(rt; spare.len(), 25);
    Ok(())
}
