//! Whether rows are those of a cycle's table.
ghost use Rattle.std.specs.Prelude.{◌≤ℤ◌, ◌-ℤ◌, pos, All, IfSome, IsTrue, map};
ghost use Rattle.std.specs.List.Sorted.{IsStrictlySortedBy};
ghost use Rattle.track_motion.specs.Keys.{key_cmp};
ghost use Rattle.track_motion.specs.Motions.{CanMove};
ghost use Rattle.track_motion.specs.Tracks.{IsHeight, IsInPlane, IsLevelled};
ghost use Rattle.track_motion.specs.declared.motion.TheConstants.{LONGEST_AGE};

use track_motion::{Stamped, Track};

/// The keys of the rows rise.
pub fn are_in_order(rows: &[Stamped]) -> bool
    ensures { IsTrue result → IsStrictlySortedBy key_cmp (map (λ r. r.track.key) rows.now) }
{
    for i in 1..rows.len() {
        if rows[i - 1].track.key >= rows[i].track.key {
            return false;
        }
    }
    true
}

/// The height is that of a track, where there is one.
fn is_height(height: Option<i32>) -> bool
    ensures { IsTrue result → IfSome height IsHeight }
{
    height.is_none_or(|height| height.unsigned_abs() <= 40_000)
}

/// The level and the altitude are those of a track.
fn is_levelled(track: &Track) -> bool
    ensures { IsTrue result → IsLevelled track.now }
{
    if track.level.is_some() != track.altitude.is_some() {
        return false;
    }
    is_height(track.level) && is_height(track.altitude)
}

/// The position is within the plane.
fn is_in_plane(track: &Track) -> bool
    ensures { IsTrue result → IsInPlane track.now.x track.now.y }
{
    track.x.unsigned_abs() <= 1 << 23 && track.y.unsigned_abs() <= 1 << 23
}

/// The row was told shortly before the time.
fn is_recent(row: &Stamped, time: i64) -> bool
    ensures later { IsTrue result → row.now.at ≤ℤ time }
    ensures recent { IsTrue result → (time -ℤ row.now.at) ≤ℤ pos LONGEST_AGE }
{
    row.at <= time && i128::from(time) - i128::from(row.at) <= 7_680
}

/// The row can be moved on to the time.
fn is_movable(row: &Stamped, time: i64) -> bool
    ensures { IsTrue result → CanMove row.now time }
{
    is_recent(row, time) && is_in_plane(&row.track) && is_levelled(&row.track)
}

/// Each row can be moved on to the time.
pub fn are_movable(rows: &[Stamped], time: i64) -> bool
    ensures { IsTrue result → All (λ r. CanMove r time) rows.now }
{
    rows.iter().all(|row| is_movable(row, time))
}
