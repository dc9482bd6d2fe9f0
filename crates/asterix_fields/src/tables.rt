//! The tables of a category: which form each item has.

ghost use Rattle.std.specs.Prelude.{◌≡◌, ◌↔◌, ◌+◌, ◌≤◌, IsTrue, length};
ghost use Rattle.std.specs.List.{list_all};
ghost use Rattle.asterix_fields.specs.Tables.{has_length, has_rows, is_row, is_well_formed, rows_of, WellFormed};

use crate::sizes::MOST_ITEMS;

/// How an item's octets are laid out (ASTERIX Part 1, data item formats).
#[derive(Clone, Copy, Debug, PartialEq, Eq)]
pub enum Form {
    /// No item stands here.
    Spare,
    /// So many octets.
    Fixed(u8),
    /// Parts of so many octets; bit 1 of a part's last octet says that another part follows.
    Extended(u8),
    /// A length octet, which counts itself, and the rest.
    Explicit,
    /// A count, and so many groups of so many octets.
    Repeat(u8),
    /// A primary subfield and the subfields that it names, by rows of the subfield table.
    Compound { first: u8, count: u8 },
}

/// The forms of a category's items, by FRN from 1.
#[derive(Debug, Drop)]
pub struct Uap<const N: usize>(pub [Form; N]);

/// The forms of the subfields of a category's compound items, one item's after the other's.
#[derive(Debug, Drop)]
pub struct Subs<const M: usize>(pub [Form; M]);

/// Whether `walk` may go by these tables: at most 35 items, no fixed or extended form of length 0, and
/// each compound's rows stand in the subfield table and are fixed or repeated.
pub fn well_formed<const N: usize, const M: usize>(uap: &Uap<N>, subs: &Subs<M>) -> bool
    ensures { IsTrue result ↔ WellFormed uap.now.0 subs.now.0 }
{
    are_well_formed(&uap.0, &subs.0)
}

fn are_well_formed(uap: &[Form], subs: &[Form]) -> bool
    ensures { result ≡ is_well_formed uap.now subs.now }
{
    uap.len() <= MOST_ITEMS && have_length(uap) && have_length(subs) && have_rows(subs, uap)
}

fn have_length(forms: &[Form]) -> bool
    ensures { result ≡ list_all has_length forms.now }
{
    forms.iter().all(|form| has_length(*form))
}

fn have_rows(subs: &[Form], forms: &[Form]) -> bool
    ensures { result ≡ list_all (has_rows subs.now) forms.now }
{
    forms.iter().all(|form| has_rows(subs, *form))
}

fn has_length(form: Form) -> bool
    ensures { result ≡ has_length form }
{
    match form {
        Form::Fixed(size) | Form::Extended(size) => size >= 1,
        _ => true,
    }
}

fn is_row(form: Form) -> bool
    ensures { result ≡ is_row form }
{
    match form {
        Form::Fixed(size) => size >= 1,
        Form::Repeat(_) => true,
        _ => false,
    }
}

fn has_rows(subs: &[Form], form: Form) -> bool
    ensures { result ≡ has_rows subs.now form }
{
    match form {
        Form::Compound { first, count } => {
            first as usize + count as usize <= subs.len() && are_rows(rows_of(subs, first, count))
        }
        _ => true,
    }
}

fn are_rows(rows: &[Form]) -> bool
    ensures { result ≡ list_all is_row rows.now }
{
    rows.iter().all(|row| is_row(*row))
}

/// A compound's rows in the subfield table.
pub fn rows_of(subs: &[Form], first: u8, count: u8) -> &[Form]
    requires { first + count ≤ length subs.now }
    ensures { result.now ≡ rows_of subs.now first count }
{
    let (_, from_first) = subs.split_at(first as usize);
    let (rows, _) = from_first.split_at(count as usize);
    rows
}
