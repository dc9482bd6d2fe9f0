//! Where the items of a record stand.

ghost use Rattle.std.specs.Prelude.{◌≡◌, ◌≤◌, ◌+◌, IfOk, IfErr, All, length};
ghost use Rattle.asterix_fields.specs.Tables.{WellFormed};
ghost use Rattle.asterix_fields.specs.Spelling.{IsWalk};
ghost use Rattle.asterix_fields.specs.Bits.{FillsTold, NoMoreTold};
ghost use Rattle.asterix_fields.specs.Faults.{Fills, fault, fault_of, record_at};
ghost use Rattle.asterix_fields.specs.FirstFault.{IsFirstFault};
ghost use Rattle.asterix_fields.specs.Reading.{FindsSpelled, found_in, found_of};

use crate::fault::ItemFault;
use crate::items::item_length;
use crate::places::{Span, Walk};
use crate::presence::{behind_first, bits_of, first_past, fspec_length, names_first};
use crate::sizes::{BLOCK_ROOM, MOST_ITEMS};
use crate::tables::{Form, Subs, Uap};

/// The record that the octets begin with, by a category's tables: how many octets it has, and where each
/// item stands. Octets may follow it.
pub fn walk<const N: usize, const M: usize>(
    uap: &Uap<N>,
    subs: &Subs<M>,
    bytes: &[u8],
) -> Result<Walk<N>, ItemFault>
    requires tables { WellFormed uap.now.0 subs.now.0 }
    requires room { length bytes.now ≤ BLOCK_ROOM }

    // What is found is spelled so.
    ensures spelled { IfOk result (λ w. IsWalk uap.now.0 subs.now.0 bytes.now w.spans w.length) }
    ensures within { IfOk result (λ w. All (λ span. span.at + span.len ≤ w.length) w.spans) }
    // What is spelled is found, whatever follows it; so where there is a fault no record is spelled.
    ensures only { FindsSpelled uap.now.0 subs.now.0 bytes.now (found_of result) }
    ensures fault { fault_of result ≡ fault uap.now.0 subs.now.0 bytes.now }
    ensures first { IfErr result (λ fault. IsFirstFault uap.now.0 subs.now.0 bytes.now fault) }
{
    let mut spans = [Span { at: 0, len: 0 }; N];
    let length = find_items(uap, subs, bytes, &mut spans)?;
    Ok(Walk { spans, length })
}

/// Writes where each item stands of the record that the octets begin with, and answers how many octets it
/// has: a walk over many records that keeps one list of places. After a fault the places say nothing.
pub fn find_items<const N: usize, const M: usize>(
    uap: &Uap<N>,
    subs: &Subs<M>,
    bytes: &[u8],
    spans: &mut [Span; N],
) -> Result<u32, ItemFault>
    requires tables { WellFormed uap.now.0 subs.now.0 }
    requires room { length bytes.now ≤ BLOCK_ROOM }

    // What is found is spelled so.
    ensures spelled { IfOk result (λ size. IsWalk uap.now.0 subs.now.0 bytes.now spans.new size) }
    ensures within { IfOk result (λ size. All (λ span. span.at + span.len ≤ size) spans.new) }
    // What is spelled is found, whatever follows it; so where there is a fault no record is spelled.
    ensures only { FindsSpelled uap.now.0 subs.now.0 bytes.now (found_in spans.new result) }
    ensures fault { fault_of result ≡ fault uap.now.0 subs.now.0 bytes.now }
    ensures first { IfErr result (λ fault. IsFirstFault uap.now.0 subs.now.0 bytes.now fault) }
{
    let end = read_record(&uap.0, &subs.0, bytes, spans)?;
    Ok(end as u32)
}

/// Writes the items' places, and answers the record's length.
fn read_record<const N: usize>(
    uap: &[Form; N],
    subs: &[Form],
    bytes: &[u8],
    spans: &mut [Span; N],
) -> Result<usize, ItemFault>
    requires tables { WellFormed uap.now subs.now }
    requires room { length bytes.now ≤ BLOCK_ROOM }
    ensures value { Fills spans.new result (record_at uap.now subs.now bytes.now) }
    ensures within { IfOk result (λ end. end ≤ length bytes.now) }
{
    let size = fspec_length(bytes)?;
    let (fspec, _) = bytes.split_at(size);
    let bits = bits_of(fspec);
    let end = item_spans(uap, subs, bits, size, bytes, spans)?;
    past_the_table(bits, uap.len())?;
    Ok(end)
}

/// Refuses a named item past the end of a table of so many items.
fn past_the_table(bits: u64, items: usize) -> Result<usize, ItemFault>
    requires { items ≤ MOST_ITEMS }
    ensures { NoMoreTold bits items result }
{
    match first_past(bits, items) {
        Some(frn) => Err(ItemFault::SpareItem(frn)),
        None => Ok(0),
    }
}

/// Writes the places of the items that the FSPEC names by these bits, the first at `start`.
fn item_spans<const N: usize>(
    uap: &[Form; N],
    subs: &[Form],
    bits: u64,
    start: usize,
    bytes: &[u8],
    spans: &mut [Span; N],
) -> Result<usize, ItemFault>
    requires tables { WellFormed uap.now subs.now }
    requires room { length bytes.now ≤ BLOCK_ROOM }
    requires inside { start ≤ length bytes.now }
    ensures value { FillsTold uap.now subs.now bits start bytes.now spans.new result }
    ensures within { IfOk result (λ end. end ≤ length bytes.now) }
{
    let (mut end, mut left) = (start, bits);
    for (index, form) in uap.iter().enumerate() {
        let at = end as u32;
        if names_first(left) {
            let size = item_length((index + 1) as u8, *form, subs, bytes, end)?;
            let len = size as u32;
            spans[index] = Span { at, len };
            end += size;
        } else {
            spans[index] = Span { at, len: 0 };
        }
        left = behind_first(left);
    }
    Ok(end)
}
