//! Laws of a body's records: each is the contract of a function that does nothing.
ghost use Rattle.std.specs.Prelude.{ℕ, ◌≡◌, ◌*◌, ◌≤◌, List, count_by, length};
ghost use Rattle.cat062_read.specs.ContentsInNumbers.{AreContentsInNumbers};
ghost use Rattle.cat062_read.specs.Records.{HasOneReading, HasReading, records};
ghost use Rattle.cat062_read.specs.TableInNumbers.{items, subfields};
ghost use Rattle.cat062_read.specs.Tracks.{is_usable};

use crate::body::LAST_PLACE;
use crate::table::{CAT062, CATEGORY, ITEMS, SUBFIELDS, SUBS062};
use asterix_fields::laws::read_as_spelled;
use track_motion::TICKS_PER_DAY;

/// Each body can be read as records and a rest that begins none.
pub fn some_reading()
    ensures { (body : List ℕ) → HasReading body }
{
    read_as_spelled();
}

/// However a body is read, its records are those of the definition, and so is what is refused of it. So no
/// two readings of a body differ in what is read or in what is refused.
pub fn one_reading()
    ensures { (body : List ℕ) → HasOneReading body }
{
    read_as_spelled();
}

/// A usable record takes two octets at least, those of its source. So a body has at most half as many usable
/// records as octets.
pub fn usable_records_are_long()
    ensures { (body : List ℕ) → count_by is_usable (records body) * 2 ≤ length body }
{
    read_as_spelled();
}

/// The numbers of category 062 and of what is read of it, each as a plain numeral.
pub fn numbers()
    ensures category { CATEGORY ≡ 62 }
    ensures items { ITEMS ≡ 35 }
    ensures subfields { SUBFIELDS ≡ 108 }
    ensures day { TICKS_PER_DAY ≡ 11059200 }
    ensures feed { LAST_PLACE ≡ 1099511627776 }
    ensures contents { AreContentsInNumbers }
{}

/// The tables that records are read by are those of the standard's order, in plain numerals.
pub fn tables_in_numbers()
    ensures items { CAT062.0 ≡ items }
    ensures subfields { SUBS062.0 ≡ subfields }
{}
