//! The track that a record tells of.
ghost use Rattle.std.specs.Prelude.{◌≡◌, ◌≤◌, IfSome, is_some};
ghost use Rattle.std.specs.Int.RustNames.{unsigned_abs};
ghost use Rattle.track_motion.specs.Tracks.{IsHeight, IsInPlane, IsLevelled};
ghost use Rattle.cat062_read.specs.Tracks.{IsPlaced, IsQnh, altitude_of, is_usable as usable, level_of, track_of};

use crate::record::Raw062;
pub use track_motion::{TICKS_PER_DAY, Track, TrackKey};

/// A record is usable: it has its source, its number, its time, and a position unless it is the track's last
/// message.
pub fn is_usable(raw: &Raw062) -> bool
    ensures { result ≡ usable raw.now }
{
    raw.source.is_some()
        && raw.number.is_some()
        && raw.time.is_some()
        && (raw.xy.is_some() || raw.ended)
}

/// The track that a record tells of, with the QNH correction of the site in 25 ft. None where the
/// record isn't usable.
pub fn track_of(raw: &Raw062, qnh: i32) -> Option<Track>
    requires { IsQnh qnh }
    ensures track { result ≡ track_of raw.now qnh }
    ensures placed { IsPlaced raw.now → IfSome result (λ track. IsInPlane track.x track.y) }
    ensures levelled { IfSome result IsLevelled }
{
    let (sac, sic) = raw.source?;
    let number = raw.number?;
    let time = raw.time? % TICKS_PER_DAY;
    if raw.xy.is_none() && !raw.ended {
        return None;
    }
    let (x, y) = raw.xy.unwrap_or((0, 0));
    let (vx, vy) = raw.speed.unwrap_or((0, 0));
    Some(Track {
        key: TrackKey { sac, sic, number },
        time,
        x,
        y,
        vx,
        vy,
        level: level_of(raw, qnh),
        altitude: altitude_of(raw, qnh),
        rate: raw.rate.unwrap_or(0),
        code: raw.code,
        tentative: raw.tentative,
        simulated: raw.simulated,
        ended: raw.ended,
    })
}

/// The flight level, else the barometric altitude without its QNH correction.
fn level_of(raw: &Raw062, qnh: i32) -> Option<i32>
    requires { IsQnh qnh }
    ensures level { result ≡ level_of raw.now.flight_level raw.now.baro qnh }
    ensures small { IfSome result (λ z. unsigned_abs z ≤ 32968) }
{
    match (raw.flight_level, raw.baro) {
        (Some(level), _) => Some(i32::from(level)),
        (None, Some((true, altitude))) => Some(i32::from(altitude) - qnh),
        (None, Some((false, altitude))) => Some(i32::from(altitude)),
        (None, None) => None,
    }
}

/// The corrected barometric altitude, else the level with the correction.
fn altitude_of(raw: &Raw062, qnh: i32) -> Option<i32>
    requires { IsQnh qnh }
    ensures altitude { result ≡ altitude_of raw.now.flight_level raw.now.baro qnh }
    ensures small { IfSome result IsHeight }
    ensures both { is_some result ≡ is_some (level_of raw.now.flight_level raw.now.baro qnh) }
{
    if let Some((true, altitude)) = raw.baro {
        return Some(i32::from(altitude));
    }
    level_of(raw, qnh).map(|level| level + qnh)
}
