//! The site of the tests, and others that are made of it.

use std::alloc::{AllocError, Global};

/// A site of one set, as it stands in the examples.
pub const SITE_A: &str = "sac = 25
sic = 100
start = 36000
period = 4
timeout = 16
codes = [0o7000]

[confirm]
stca = [2, 3, 2]
msaw = [2, 3, 2]
apw = [1, 1, 1]
apm = [2, 3, 2]

[[set]]
name = \"base\"
stca = true
msaw = true
apw = true
apm = true
look_stca = 120
look_msaw = 60
look_apw = 60
look_apm = 60
h = 9260
v_low = 800
v_high = 1000
split = 29000
now_h = 4630
now_v_low = 500
now_v_high = 600
urgent = 20
";

/// The site of the tests with this behind it.
pub fn site_with(alloc: Global, more: &str) -> Result<String, AllocError> {
    let mut site = String::from_str(alloc, SITE_A)?;
    site.push_str(more)?;
    Ok(site)
}

/// The text with the lines that say `old` written otherwise.
pub fn changed(alloc: Global, text: &str, old: &str, new: &str) -> Result<String, AllocError> {
    let mut other = String::new(alloc);
    for line in text.lines() {
        other.push_str(if line == old { new } else { line })?;
        other.push_str("\n")?;
    }
    Ok(other)
}
