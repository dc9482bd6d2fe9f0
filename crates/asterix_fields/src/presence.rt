//! Presence octets: the FSPEC of a record, and the primary subfield of a compound item.

ghost use Rattle.std.specs.Prelude.{◌≡◌, ◌≤◌, ◌<◌, ◌+◌, ◌/◌, ◌%◌, ◌^◌, ℕ, List, length, slice_index, IfOk, IfSome};
ghost use Rattle.asterix_fields.specs.Spelling.{is_named};
ghost use Rattle.asterix_fields.specs.Faults.{first_named, fspec_at, primary_at, spare_subfield};
ghost use Rattle.asterix_fields.specs.Bits.{FirstTold, IsPast, Tells, TellsBehind};

use crate::fault::ItemFault;
use crate::sizes::{MOST_ITEMS, NO_SUBFIELD, PRESENCE_ROOM};

/// The bit of number 1.
const FIRST_BIT: u64 = 1 << (MOST_ITEMS - 1);

/// The presence octets as one number, in which a number from 1 to 35 is named by the bit of worth
/// 2^(35 - number).
pub fn bits_of(octets: &[u8]) -> u64
    requires few { length octets.now ≤ PRESENCE_ROOM }
    ensures { Tells result octets.now }
{
    let first = seven_bits(octets, 0);
    let second = first * 128 + seven_bits(octets, 1);
    let third = second * 128 + seven_bits(octets, 2);
    let fourth = third * 128 + seven_bits(octets, 3);
    fourth * 128 + seven_bits(octets, 4)
}

/// Bits 8 to 2 of an octet, from 0; none, where no octet stands there.
fn seven_bits(octets: &[u8], index: usize) -> u64
    ensures value { result ≡ slice_index octets.now index / 2 }
    ensures below { result < 128 }
{
    match octets.get(index) {
        Some(octet) => *octet as u64 / 2,
        None => 0,
    }
}

/// Whether the first number is named of those that the bits tell of.
pub fn names_first(bits: u64) -> bool
    ensures { (from : ℕ) (octets : List ℕ) → TellsBehind from bits octets → result ≡ is_named octets (from + 1) }
{
    bits >= FIRST_BIT
}

/// The bits that tell of the numbers behind that one.
pub fn behind_first(bits: u64) -> u64
    ensures { (from : ℕ) (octets : List ℕ) → TellsBehind from bits octets → TellsBehind (from + 1) result octets }
{
    bits % FIRST_BIT * 2
}

/// The first number past so many rows of which the bit is set.
pub fn first_past(bits: u64, rows: usize) -> Option<u8>
    requires { rows ≤ MOST_ITEMS }
    ensures value { FirstTold bits rows result }
    ensures past { IfSome result (IsPast rows) }
{
    let past = low_bits(bits, MOST_ITEMS - rows);
    if past == 0 {
        None
    } else {
        Some((MOST_ITEMS as u32 - past.ilog2()) as u8)
    }
}

/// Whether presence octets name a number, from 1.
pub fn is_named(octets: &[u8], number: usize) -> bool
    requires { 1 ≤ number }
    ensures { result ≡ is_named octets.now number }
{
    let place = number - 1;
    match octets.get(place / 7) {
        Some(octet) => (*octet >> (7 - place % 7)) % 2 == 1,
        None => false,
    }
}

/// The first of `count` numbers from `from` on that presence octets name.
pub fn first_named(octets: &[u8], count: usize, from: usize) -> Option<u8>
    requires above_zero { 1 ≤ from }
    requires small { from + count ≤ 256 }
    ensures { result ≡ first_named octets.now count from }
{
    for number in from..from + count {
        if is_named(octets, number) {
            return Some(number as u8);
        }
    }
    None
}

fn low_bits(bits: u64, count: usize) -> u64
    requires { count ≤ MOST_ITEMS }
    ensures { result ≡ bits % 2 ^ count }
{
    bits % (1 << count)
}

/// How many octets the FSPEC at the front has.
pub fn fspec_length(bytes: &[u8]) -> Result<usize, ItemFault>
    ensures value { result ≡ fspec_at bytes.now }
    ensures within { IfOk result (λ size. size ≤ length bytes.now) }
    ensures few { IfOk result (λ size. size ≤ PRESENCE_ROOM) }
{
    for (index, octet) in bytes.iter().enumerate() {
        if *octet % 2 == 0 {
            return Ok(index + 1);
        }
        if index + 1 == PRESENCE_ROOM {
            return Err(ItemFault::LongFspec);
        }
    }
    Err(ItemFault::PastEnd(0))
}

/// How many octets the primary subfield at the front has, of an item that has so many subfields.
pub fn primary_length(frn: u8, rows: usize, bytes: &[u8]) -> Result<usize, ItemFault>
    requires { rows < 256 }
    ensures value { result ≡ primary_at frn rows bytes.now }
    ensures within { IfOk result (λ size. size ≤ length bytes.now) }
    ensures few { IfOk result (λ size. size ≤ PRESENCE_ROOM) }
{
    for (index, octet) in bytes.iter().enumerate() {
        if let Some(number) = spare_subfield(bytes, rows, index) {
            return Err(ItemFault::SpareSubfield(frn, number));
        }
        if *octet % 2 == 0 {
            return Ok(index + 1);
        }
        if index + 1 == PRESENCE_ROOM {
            return Err(ItemFault::SpareSubfield(frn, NO_SUBFIELD));
        }
    }
    Err(ItemFault::PastEnd(frn))
}

/// The first subfield past the item's rows that a primary octet, from 0, names.
fn spare_subfield(bytes: &[u8], rows: usize, index: usize) -> Option<u8>
    requires octet { index < PRESENCE_ROOM }
    requires few { rows < 256 }
    ensures { result ≡ spare_subfield bytes.now rows index }
{
    let from = (7 * index + 1).max(rows + 1);
    let count = (7 * index + 8).saturating_sub(from);
    if seven_bits(bytes, index) % (1 << count) == 0 {
        return None;
    }
    first_named(bytes, count, from)
}
