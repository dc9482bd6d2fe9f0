//! What a hit of a row by an object of the site is to alerts.
ghost use Rattle.std.specs.Prelude.{◌≡◌, ◌<◌, ◌^◌};
ghost use Rattle.alert_states.specs.Figures.{FitsOctets};
ghost use Rattle.site_types.specs.Ranges.{IsSite};
ghost use Rattle.cycle_workers.specs.Firsts.{IsSoon};
ghost use Rattle.cycle_workers.specs.Hits.{row_figures as figures_of, row_subject as subject_of, tick_hit as hit_by};
ghost use Rattle.cycle_workers.specs.Movers.{IsMover, IsSetOf};

use crate::movers::Mover;
use alert_states::{Hit, HitData, Subject, URGENT};
use site_types::{Net, Set, Site};
use tick_sets::TickHit;
use track_motion::TrackKey;

/// No second track.
const NO_KEY: TrackKey = TrackKey {
    sac: 0,
    sic: 0,
    number: 0,
};

/// Whom a hit of a row by the object of this number is about.
pub fn row_subject(net: Net, m: &Mover, object: u16) -> Subject
    ensures { result ≡ subject_of net m.now object }
{
    Subject {
        net,
        key: m.key,
        other: NO_KEY,
        object,
    }
}

/// The figures of a hit that begins at this tick.
pub fn row_figures(first: i64, flags: u8) -> HitData
    requires soon { IsSoon first }
    ensures figures { result ≡ figures_of first flags }
    ensures room { FitsOctets result }
{
    HitData {
        first: first as u32,
        closest: 0,
        chs: 0,
        mhs: 0,
        cvs: 0,
        mvs: 0,
        flags,
    }
}

/// What a hit by the terrain or by a volume is to alerts.
pub fn tick_hit(net: Net, m: &Mover, object: u16, hit: TickHit) -> Hit
    requires soon { IsSoon hit.first }
    ensures hit { result ≡ hit_by net m.now object hit }
    ensures room { FitsOctets result.figures }
{
    let flags = if hit.urgent { URGENT } else { 0 };
    Hit {
        subject: row_subject(net, m, object),
        urgent: hit.urgent,
        figures: row_figures(hit.first, flags),
    }
}

/// The parameter set of a row.
pub fn set_of<'a>(site: &'a Site, m: &Mover) -> &'a Set
    requires site { IsSite site.now }
    requires m { IsMover site.now m.now }
    ensures { IsSetOf site.now m.now result.now }
{
    &site.sets.as_slice()[m.set as usize]
}

/// The number of an object: its place among all.
pub fn number_of(place: usize) -> u16
    requires { place < 2 ^ 16 }
    ensures { result ≡ place }
{
    place as u16
}
