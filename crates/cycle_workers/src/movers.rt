//! The rows that a net looks at.
ghost use Rattle.std.specs.Prelude.{◌≡◌, IfOk, IfSome, All};
ghost use Rattle.site_types.specs.Ranges.{IsSite};
ghost use Rattle.track_motion.specs.Motions.{CanMove, InRange};
ghost use Rattle.track_table.specs.Proper.{IsProper};
ghost use Rattle.cycle_workers.specs.Eligible.{enabled as those, is_enabled as enables, is_left_out as left_out, is_watched as watched_track, movers, watched as watched_rows, watched_of};
ghost use Rattle.cycle_workers.specs.Movers.{AreMovers, IsKey, IsMover};

use crate::NoMemory;
use crate::regions::set_of;
use site_types::{Net, Site};
use std::alloc::Global;
use track_motion::{Motion, Stamped, Track, TrackKey, motion_at};
use track_table::Frozen;

/// An eligible row: its key, its motion from the table's time on, and the number of its parameter set.
#[derive(Clone, Copy, Debug, PartialEq, Eq)]
pub struct Mover {
    pub key: TrackKey,
    pub motion: Motion,
    pub set: u32,
}

/// A parameter set enables the net.
fn is_enabled(site: &Site, net: Net, set: u32) -> bool
    ensures { result ≡ enables site.now net set }
{
    site.sets
        .as_slice()
        .get(set as usize)
        .is_some_and(|set| set.enables(net))
}

/// The site leaves the code out.
fn is_left_out(site: &Site, code: Option<u16>) -> bool
    ensures { result ≡ left_out site.now code }
{
    code.is_some_and(|code| site.codes.as_slice().contains(&code))
}

/// The nets look at the track, where it has a level.
fn is_watched(site: &Site, track: &Track) -> bool
    ensures { result ≡ watched_track site.now track.now }
{
    !track.tentative && !track.simulated && !is_left_out(site, track.code)
}

/// A key has two octets and 16 bits.
fn keys_fit(_key: TrackKey)
    ensures { IsKey _key }
{}

/// The row's mover at this time, where the nets look at its track and it has a level.
fn watched_mover(site: &Site, time: i64, row: &Stamped) -> Option<Mover>
    requires site { IsSite site.now }
    requires row { CanMove row.now time }
    ensures mover { result ≡ watched_of site.now time row.now }
    ensures range { IfSome result (IsMover site.now) }
{
    if !is_watched(site, &row.track) {
        return None;
    }
    let motion = motion_at(row, time)?;
    keys_fit(row.track.key);
    Some(Mover {
        key: row.track.key,
        motion,
        set: set_of(site, &motion),
    })
}

/// The rows of a table that the nets look at and that have a level, in key order.
pub fn watched(alloc: Global, f: &Frozen, site: &Site) -> Result<Vec<Mover>, NoMemory>
    requires table { IsProper f.now }
    requires site { IsSite site.now }
    ensures movers { IfOk result (λ v. v.items ≡ watched_rows site.now f.now) }
    ensures range { IfOk result (λ v. AreMovers site.now v.items) }
{
    let rows = f.rows.as_slice();
    let mut movers = Vec::new(alloc);
    for row in rows {
        if let Some(mover) = watched_mover(site, f.time, row) {
            movers.push(mover)?;
        }
    }
    Ok(movers)
}

/// Those of the movers whose set enables the net.
pub fn enabled(alloc: Global, site: &Site, net: Net, all: &[Mover]) -> Result<Vec<Mover>, NoMemory>
    requires all { AreMovers site.now all.now }
    ensures movers { IfOk result (λ v. v.items ≡ those site.now net all.now) }
    ensures range { IfOk result (λ v. AreMovers site.now v.items) }
{
    let mut movers = Vec::new(alloc);
    for mover in all {
        if is_enabled(site, net, mover.set) {
            movers.push(*mover)?;
        }
    }
    Ok(movers)
}

/// The rows of a table that a net looks at and that have a level, in key order.
pub fn eligible(alloc: Global, f: &Frozen, site: &Site, net: Net) -> Result<Vec<Mover>, NoMemory>
    requires table { IsProper f.now }
    requires site { IsSite site.now }
    ensures movers { IfOk result (λ v. v.items ≡ movers site.now net f.now) }
    ensures range { IfOk result (λ v. All (λ m. InRange m.motion) v.items) }
{
    let all = watched(alloc, f, site)?;
    enabled(alloc, site, net, &all)
}
