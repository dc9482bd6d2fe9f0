//! The record that octets begin with.
ghost use Rattle.std.specs.Prelude.{◌≡◌, ◌≤◌, ◌+◌, IfOk, All, length};
ghost use Rattle.asterix_fields.specs.Spelling.{texts_at};
ghost use Rattle.asterix_fields.specs.Faults.{fault_of};
ghost use Rattle.cat062_read.specs.Contents.{item};
ghost use Rattle.cat062_read.specs.Records.{IsFront, ReadsSpelled, fault062, reading};
ghost use Rattle.cat062_read.specs.Tracks.{IsPlaced};

use crate::item;
use crate::record::Raw062;
use crate::table::{CAT062, ITEMS, SUBFIELDS, SUBS062};
use asterix_fields::laws::read_as_spelled;
use asterix_fields::sizes::BLOCK_ROOM;
use asterix_fields::{ItemFault, Span, Subs, Uap, find_items};
use std::marker::Model;

// What is read of a record: each field from the octets of the item of its FRN.
macro_rules! contents {
    ($bytes:ident, $places:ident; $($frn:literal => $field:ident by $reader:ident),+ $(,)?) => {
        Raw062 { $($field: item::$reader(text_of($bytes, $places, $frn - 1))),+ }
    };
}

/// The record that the octets begin with, and how many octets it has; others may follow. Where they begin
/// no record, the first fault.
pub fn read_record(bytes: &[u8]) -> Result<(Raw062, usize), ItemFault>
    requires { length bytes.now ≤ BLOCK_ROOM }

    // What is read is spelled so.
    ensures spelled { IfOk result (λ found. IsFront bytes.now found.0 found.1) }
    // What is spelled is read, whatever follows it; so where there is a fault no record is spelled.
    ensures only { ReadsSpelled bytes.now result }
    ensures fault { fault_of result ≡ fault062 bytes.now }
    ensures reading { result ≡ reading bytes.now }
    ensures placed { IfOk result (λ found. IsPlaced found.0) }
{
    // The proof takes this law; the call does nothing.
    read_as_spelled();
    let mut reader = Reader::new();
    reader.read(bytes)
}

/// Reads one record after another. Its tables and its list of places are made once and serve for all: a
/// constant that is lent would be copied at each record.
#[derive(Drop)]
pub struct Reader {
    items: Uap<ITEMS>,
    subfields: Subs<SUBFIELDS>,
    // Where the items of a record stand, once it is found.
    places: [Span; ITEMS],
}

impl Model for Reader {
    ghost use Rattle.std.specs.Prelude.{◌≡◌};
    ghost use Rattle.cat062_read.specs.declared.table.TheConstants.{CAT062, SUBS062};

    // What was read before makes no difference.
    ghost Value = { Unit {0} };

    ghost view = { λ _. tt };

    ghost invariant = { λ r. (r.items ≡ CAT062) × (r.subfields ≡ SUBS062) };
}

impl Reader {
    /// A reader that has read nothing so far.
    pub fn new() -> Reader {
        Reader {
            items: CAT062,
            subfields: SUBS062,
            places: [Span { at: 0, len: 0 }; ITEMS],
        }
    }

    /// The record that the octets begin with, as `read_record` has it.
    pub fn read(&mut self, bytes: &[u8]) -> Result<(Raw062, usize), ItemFault>
        requires { length bytes.now ≤ BLOCK_ROOM }
        ensures reading { result ≡ reading bytes.now }
        ensures placed { IfOk result (λ found. IsPlaced found.0) }
    {
        // The proof takes this law; the call does nothing.
        read_as_spelled();
        let length = find_items(&self.items, &self.subfields, bytes, &mut self.places)?;
        let places = &self.places;
        let raw = contents!(bytes, places;
            1 => source by source,
            4 => time by time,
            5 => wgs by wgs,
            6 => xy by position,
            7 => speed by speed,
            8 => accel by acceleration,
            9 => code by code,
            12 => number by number,
            13 => tentative by is_tentative,
            13 => simulated by is_simulated,
            13 => ended by is_ended,
            17 => flight_level by signed,
            19 => baro by barometric,
            20 => rate by signed,
        );
        Ok((raw, length as usize))
    }
}

/// The octets of an item, by its index in the table from 0; none, where it is absent.
fn text_of<'a>(bytes: &'a [u8], places: &[Span], index: usize) -> &'a [u8]
    requires { All (λ span. span.at + span.len ≤ length bytes.now) places.now }
    ensures { result.now ≡ item (texts_at bytes.now places.now) (index + 1) }
{
    let Some(place) = places.get(index) else {
        return &[];
    };
    let (_, from) = bytes.split_at(place.at as usize);
    let (text, _) = from.split_at(place.len as usize);
    text
}
