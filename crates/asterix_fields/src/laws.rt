//! Laws of the field calls and of the grammar: each is the contract of a function that does nothing.

ghost use Rattle.std.specs.Prelude.{◌≡◌, ◌<◌, ◌^◌, ℕ, List, length};
ghost use Rattle.asterix_fields.specs.InNumbers.{IsOrderOfOctets, IsPresenceOfNumbers};
ghost use Rattle.asterix_fields.specs.declared.tables.Form.{Form};
ghost use Rattle.asterix_fields.specs.declared.places.Span.{Span};
ghost use Rattle.asterix_fields.specs.Tables.{WellFormed};
ghost use Rattle.asterix_fields.specs.Spelling.{HasItems, HasOneSpelling, IsWalk};
ghost use Rattle.asterix_fields.specs.Reading.{AllReadAsSpelled, HasOneFault};
ghost use Rattle.asterix_fields.specs.Numbers.{big_endian, octets, AreOctets};

use crate::sizes::{BLOCK_ROOM, HEADER_LENGTH, MOST_ITEMS, NO_SUBFIELD, PRESENCE_ROOM};

/// A number that was written as octets is read again.
pub fn read_after_write()
    ensures { (count value : ℕ) → value < 256 ^ count → big_endian (octets count value) ≡ value }
{}

/// Octets that were read as a number are written again.
pub fn write_after_read()
    ensures { (bytes : List ℕ) → AreOctets bytes → octets (length bytes) (big_endian bytes) ≡ bytes }
{}

/// No text begins with two records.
pub fn one_spelling()
    ensures { (uap subs : List Form) → WellFormed uap subs → HasOneSpelling uap subs }
{}

/// Each item of a walk is the text at its offset: an item that the FSPEC names has a spelling there, any
/// other one has no octet.
pub fn item_of_walk()
    ensures { (uap subs : List Form) (bytes : List ℕ) (spans : List Span) (size : ℕ) →
        (walk : IsWalk uap subs bytes spans size) → HasItems walk }
{}

/// There is one first fault where octets begin no record, and none where they begin one.
pub fn one_fault()
    ensures { (uap subs : List Form) → WellFormed uap subs → HasOneFault uap subs }
{}

/// A record is found exactly where one is spelled. A crate that reads a category's records needs no more
/// than this of how they are found.
pub fn read_as_spelled()
    ensures { AllReadAsSpelled }
{}

/// The numbers of ASTERIX that hold for every category, each as a plain numeral.
pub fn numbers()
    ensures header { HEADER_LENGTH ≡ 3 }
    ensures block { BLOCK_ROOM ≡ 65535 }
    ensures presence { PRESENCE_ROOM ≡ 5 }
    ensures items { MOST_ITEMS ≡ 35 }
    ensures none { NO_SUBFIELD ≡ 36 }
    ensures named { IsPresenceOfNumbers }
    ensures octets { IsOrderOfOctets }
{}
