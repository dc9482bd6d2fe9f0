//! What a cycle hits, and what it says of alerts.
use site_types::Net;
use track_motion::TrackKey;

/// Whom an alert is about: a pair of tracks, a track, a track and a volume, or a track and a funnel.
/// Subjects are ordered by these fields.
#[derive(Clone, Copy, Debug, PartialEq, Eq, PartialOrd, Ord)]
pub struct Subject {
    pub net: Net,
    pub key: TrackKey,
    /// The second track of a pair; 0, 0, 0 outside STCA.
    pub other: TrackKey,
    /// The volume's or the funnel's number; 0 in STCA and MSAW.
    pub object: u16,
}

/// Flag of a hit: it is urgent.
pub const URGENT: u8 = 1;

/// Flag of a hit in STCA: the tracks are already too near.
pub const CURRENT_PROXIMITY: u8 = 2;

/// Flag of a hit in APM: the track is below the funnel.
pub const BELOW: u8 = 4;

/// Flag of a hit in APM: the track is above the funnel.
pub const ABOVE: u8 = 8;

/// Flag of a hit in APM: the track is left of the funnel.
pub const LEFT: u8 = 16;

/// Flag of a hit in APM: the track is right of the funnel.
pub const RIGHT: u8 = 32;

/// The figures of a hit. Those that a net doesn't have are 0.
#[derive(Clone, Copy, Debug, PartialEq, Eq)]
pub struct HitData {
    /// The first tick of the conflict, in 1/128 s from the cycle's time.
    pub first: u32,
    /// The tick of closest approach, in 1/128 s from the cycle's time.
    pub closest: u32,
    /// The current horizontal separation in 0.5 m.
    pub chs: u32,
    /// The minimum horizontal separation in 0.5 m.
    pub mhs: u16,
    /// The current vertical separation in 25 ft.
    pub cvs: u16,
    /// The vertical separation at the minimum horizontal one, in 25 ft.
    pub mvs: u16,
    /// A sum of `URGENT`, `CURRENT_PROXIMITY`, `BELOW`, `ABOVE`, `LEFT` and `RIGHT`.
    pub flags: u8,
}

/// A subject that a net hits in a cycle.
#[derive(Clone, Copy, Debug, PartialEq, Eq)]
pub struct Hit {
    pub subject: Subject,
    /// One hit is enough to begin an alert.
    pub urgent: bool,
    pub figures: HitData,
}

/// How many numbers there are for alerts; after the last of them comes 0 again.
pub const ALERT_NUMBERS: u64 = 65_536;

/// How an alert stands.
#[derive(Clone, Copy, Debug, PartialEq, Eq)]
pub enum Status {
    First,
    Continuing,
    Ended,
}

/// What a cycle says of an alert.
#[derive(Clone, Copy, Debug, PartialEq, Eq)]
pub struct Event {
    pub subject: Subject,
    pub status: Status,
    /// The alert's number.
    pub id: u16,
    /// The hit, where the subject was hit in this cycle.
    pub hit: Option<HitData>,
}
