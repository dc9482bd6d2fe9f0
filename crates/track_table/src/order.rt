//! The records of a table in the order of their keys.
ghost use Rattle.std.specs.Prelude.{◌≡◌, ◌≢◌, [], IfOk, OnErr, filter};
ghost use Rattle.std.specs.HashMap.{values};
ghost use Rattle.track_table.specs.KeyOrder.{ArePlacesOf, IsKey, key_number, records_at};
ghost use Rattle.track_table.specs.Tables.{is_row};

use crate::NoMemory;
use crate::latest::is_row;
use crate::rows::Rows;
use indexmap::IndexMap;
use std::alloc::Global;
use track_motion::{Stamped, TrackKey};

/// Where a record stands among others, and its key as a number.
#[derive(Clone, Copy)]
pub struct RowPlace {
    pub number: u32,
    pub index: usize,
}

/// A key as one number: keys are in the order of their numbers.
fn key_number(key: TrackKey) -> u32
    ensures number { result ≡ key_number key }
    ensures key { IsKey key }
{
    u32::from(key.sac) * 16_777_216 + u32::from(key.sic) * 65_536 + u32::from(key.number)
}

/// Where the rows of a time stand among the records.
pub fn places_of_rows(
    alloc: Global,
    records: &IndexMap<TrackKey, Stamped>,
    time: i64,
    timeout: i64,
) -> Result<Vec<RowPlace>, NoMemory>
    ensures places { IfOk result (λ places. ArePlacesOf (is_row time timeout) (values records.now) places.items) }
    ensures memory { OnErr result (filter (is_row time timeout) (values records.now) ≢ []) }
{
    let mut places = Vec::new(alloc);
    for index in 0..records.len() {
        if let Some((_, row)) = records.get_index(index) {
            if is_row(row, time, timeout) {
                let number = key_number(row.track.key);
                places.push(RowPlace { number, index })?;
            }
        }
    }
    Ok(places)
}

/// The records at these places, as rows.
pub fn rows_at_places(
    alloc: Global,
    records: &IndexMap<TrackKey, Stamped>,
    places: &[RowPlace],
) -> Result<Rows, NoMemory>
    ensures rows { IfOk result (λ rows. rows ≡ records_at (values records.now) places.now) }
    ensures memory { OnErr result (places.now ≢ []) }
{
    let mut rows = Vec::with_capacity(alloc, places.len())?;
    for place in places {
        if let Some((_, row)) = records.get_index(place.index) {
            rows.push(*row)?;
        }
    }
    Ok(Rows::new(rows))
}
