//! Texts that no row of `site_answers` says: of other octets, of the greatest length, of sets that are told apart.

use site_params::{Field, SITE_ROOM, SiteFault, read_site};
use std::alloc::Global;
use std::test::Fail;

const SETTINGS: &str = "sac = 25
sic = 100
start = 36000
period = 4
timeout = 16
codes = [0o7000]

[confirm]
stca = [2, 3, 2]
msaw = [2, 3, 2]
apw = [1, 1, 1]
apm = [2, 3, 2]
";

/// A parameter set, besides its name and its urgent limit.
const SET: &str = "stca = true
msaw = true
apw = true
apm = true
look_stca = 120
look_msaw = 60
look_apw = 60
look_apm = 60
h = 9260
v_low = 800
v_high = 1000
split = 29000
now_h = 4630
now_v_low = 500
now_v_high = 600
";

/// The settings with so many sets, whose names and urgent limits are their numbers.
fn with_sets(alloc: Global, count: u32) -> Result<String, Fail> {
    let mut text = String::from_str(alloc, SETTINGS)?;
    for set in 0..count {
        text.push_str(&format!(in alloc; "[[set]]\nname = \"{set}\"\nurgent = {set}\n{SET}")?)?;
    }
    Ok(text)
}

#[test]
fn as_many_sets_as_there_may_be(rt: HostRuntime) -> Result<(), Fail> {
    let text = with_sets(rt.alloc(), 64)?;
    let sets = read_site(rt.alloc(), text.as_bytes())?.sets.into_vec();
    assert_eq!(rt; sets.len(), 64);
    for (index, set) in sets.iter().enumerate() {
        assert_eq!(rt; set.urgent, 128 * index as i64);
    }
    Ok(())
}

#[test]
fn octets_that_are_no_text(rt: HostRuntime) {
    assert!(rt; matches!(read_site(rt.alloc(), b"# \xC3"), Err(SiteFault::Syntax)));
}

#[test]
fn a_byte_order_mark_and_other_line_ends(rt: HostRuntime) -> Result<(), Fail> {
    let mut text = String::from_str(rt.alloc(), "\u{FEFF}")?;
    let absent = SiteFault::Missing(Field {
        number: 2,
        entry: 0,
    });
    assert_eq!(rt; read_site(rt.alloc(), text.as_bytes()).err(), Some(absent));
    for line in with_sets(rt.alloc(), 1)?.lines() {
        text.push_str(line)?;
        text.push_str("\r\n")?;
    }
    assert!(rt; read_site(rt.alloc(), text.as_bytes()).is_ok());
    Ok(())
}

#[test]
fn texts_as_long_as_they_may_be(rt: HostRuntime) -> Result<(), Fail> {
    let one = with_sets(rt.alloc(), 1)?;
    let mut text = Vec::from_slice(rt.alloc(), one.as_bytes())?;
    text.resize(SITE_ROOM, b'\n')?;
    assert!(rt; read_site(rt.alloc(), &text).is_ok());
    text.push(0xFF)?;
    assert!(rt; matches!(read_site(rt.alloc(), &text), Err(SiteFault::Long)));
    Ok(())
}
