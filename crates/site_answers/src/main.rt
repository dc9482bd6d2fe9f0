//! Prints what each site text of a table is answered. A row of the table is a line of the standard input; what it
//! says of its text stands in [`mod@rows`].
#![tactic(auto)]

mod bases;
mod rows;

use rows::{Row, row_of};
use site_params::read_site;
use site_types::Site;
use std::alloc::{AllocError, Global};
use std::io::{self, BufRead, BufReader};

fn main(rt: HostRuntime) -> io::Result<()> {
    for line in BufReader::new(rt.alloc(), rt.reader())?.lines(rt.alloc()) {
        let line = line?;
        let answer = answer_of(rt.alloc(), line.as_str())?;
        println!(rt; "{line} => {answer}")?;
    }
    Ok(())
}

/// What the row's text is answered.
fn answer_of(alloc: Global, line: &str) -> Result<String, AllocError> {
    let row = row_of(alloc, line)?;
    match read_site(alloc, row.text.as_bytes()) {
        Ok(site) => shown(alloc, &row, &site),
        Err(fault) => format!(in alloc; "{fault}"),
    }
}

/// How many entries a site has, and whether it shows what the row says.
fn shown(alloc: Global, row: &Row, site: &Site) -> Result<String, AllocError> {
    let whole = format!(in alloc; "{site:?}")?;
    if !whole.contains(row.part) {
        return Ok(whole);
    }
    format!(in alloc;
        "{} sets, {} regions, {} volumes, {} funnels",
        site.sets.as_slice().len(),
        site.regions.as_slice().len(),
        site.volumes.as_slice().len(),
        site.funnels.as_slice().len()
    )
}
