//! How many octets an item has, by its form.

ghost use Rattle.std.specs.Prelude.{◌≡◌, ◌≤◌, ◌+◌, IsTrue, IfOk, length, drop};
ghost use Rattle.asterix_fields.specs.Tables.{AreRows, has_length, has_rows, is_row};
ghost use Rattle.asterix_fields.specs.Bits.{EndsTold};
ghost use Rattle.asterix_fields.specs.Faults.{so_many, extended_at, simple_at, compound_at, item_at};

use crate::fault::ItemFault;
use crate::presence::{bits_of, first_past, primary_length};
use crate::tables::{Form, rows_of};

/// How many octets the item has that stands at this offset.
pub fn item_length(
    frn: u8,
    form: Form,
    subs: &[Form],
    bytes: &[u8],
    at: usize,
) -> Result<usize, ItemFault>
    requires sized { IsTrue (has_length form) }
    requires rows { IsTrue (has_rows subs.now form) }
    requires inside { at ≤ length bytes.now }
    ensures value { result ≡ item_at subs.now frn form (drop at bytes.now) }
    ensures within { IfOk result (λ size. at + size ≤ length bytes.now) }
{
    match form {
        Form::Fixed(size) => fixed_length(frn, size as usize, bytes, at),
        _ => {
            let (_, rest) = bytes.split_at(at);
            front_length(frn, form, subs, rest)
        }
    }
}

fn fixed_length(frn: u8, size: usize, bytes: &[u8], at: usize) -> Result<usize, ItemFault>
    requires inside { at ≤ length bytes.now }
    ensures value { result ≡ so_many frn size (drop at bytes.now) }
    ensures within { IfOk result (λ size. at + size ≤ length bytes.now) }
{
    if bytes.len() - at < size {
        return Err(ItemFault::PastEnd(frn));
    }
    Ok(size)
}

/// How many octets the item at the front has.
fn front_length(frn: u8, form: Form, subs: &[Form], bytes: &[u8]) -> Result<usize, ItemFault>
    requires sized { IsTrue (has_length form) }
    requires rows { IsTrue (has_rows subs.now form) }
    ensures value { result ≡ item_at subs.now frn form bytes.now }
    ensures within { IfOk result (λ size. size ≤ length bytes.now) }
{
    match form {
        Form::Compound { first, count } => compound_length(frn, rows_of(subs, first, count), bytes),
        _ => simple_length(frn, form, bytes),
    }
}

/// The same for a form that isn't compound.
fn simple_length(frn: u8, form: Form, bytes: &[u8]) -> Result<usize, ItemFault>
    requires { IsTrue (has_length form) }
    ensures value { result ≡ simple_at frn form bytes.now }
    ensures within { IfOk result (λ size. size ≤ length bytes.now) }
{
    match form {
        Form::Fixed(size) => so_many(frn, size as usize, bytes),
        Form::Extended(size) => extended_length(frn, size, bytes),
        Form::Explicit => match bytes {
            [] => Err(ItemFault::PastEnd(frn)),
            [0, ..] => Err(ItemFault::ZeroLength(frn)),
            [size, ..] => so_many(frn, *size as usize, bytes),
        },
        Form::Repeat(size) => match bytes {
            [] => Err(ItemFault::PastEnd(frn)),
            [count, ..] => so_many(frn, 1 + size as usize * *count as usize, bytes),
        },
        Form::Spare | Form::Compound { .. } => Err(ItemFault::SpareItem(frn)),
    }
}

fn so_many(frn: u8, size: usize, bytes: &[u8]) -> Result<usize, ItemFault>
    ensures value { result ≡ so_many frn size bytes.now }
    ensures within { IfOk result (λ size. size ≤ length bytes.now) }
{
    if bytes.len() < size {
        return Err(ItemFault::PastEnd(frn));
    }
    Ok(size)
}

/// Up to the first part whose last octet has bit 1 clear.
fn extended_length(frn: u8, size: u8, bytes: &[u8]) -> Result<usize, ItemFault>
    requires { 1 ≤ size }
    ensures value { result ≡ extended_at frn size size 0 bytes.now }
    ensures within { IfOk result (λ size. size ≤ length bytes.now) }
{
    let mut left = size;
    for (index, octet) in bytes.iter().enumerate() {
        if left == 1 {
            if *octet % 2 == 0 {
                return Ok(index + 1);
            }
            left = size;
        } else {
            left -= 1;
        }
    }
    Err(ItemFault::PastEnd(frn))
}

/// The primary octets, and the subfields that they name.
fn compound_length(frn: u8, rows: &[Form], bytes: &[u8]) -> Result<usize, ItemFault>
    requires { AreRows rows.now }
    ensures value { result ≡ compound_at frn rows.now bytes.now }
    ensures within { IfOk result (λ size. size ≤ length bytes.now) }
{
    let primary = primary_length(frn, rows.len(), bytes)?;
    let (presence, _) = bytes.split_at(primary);
    subfields_end(frn, rows, bits_of(presence), primary, bytes)
}

/// Where the subfields end that the primary octets name by these bits: the first stands at `start`.
fn subfields_end(
    frn: u8,
    rows: &[Form],
    bits: u64,
    start: usize,
    bytes: &[u8],
) -> Result<usize, ItemFault>
    requires rows { AreRows rows.now }
    requires inside { start ≤ length bytes.now }
    ensures value { EndsTold frn rows.now bits start bytes.now result }
    ensures within { IfOk result (λ end. end ≤ length bytes.now) }
{
    let mut at = start;
    let mut done = 0;
    while let Some(number) = first_past(bits, done) {
        match rows.get(number as usize - 1) {
            Some(row) => at += row_length(frn, *row, bytes, at)?,
            None => return Ok(at),
        }
        done = number as usize;
    }
    Ok(at)
}

/// How many octets a subfield has that stands at this offset.
fn row_length(frn: u8, row: Form, bytes: &[u8], at: usize) -> Result<usize, ItemFault>
    requires fixed_or_repeated { IsTrue (is_row row) }
    requires inside { at ≤ length bytes.now }
    ensures value { result ≡ simple_at frn row (drop at bytes.now) }
    ensures within { IfOk result (λ size. at + size ≤ length bytes.now) }
{
    match row {
        Form::Fixed(size) => fixed_length(frn, size as usize, bytes, at),
        _ => {
            let (_, rest) = bytes.split_at(at);
            simple_length(frn, row, rest)
        }
    }
}
