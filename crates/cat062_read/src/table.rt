//! The tables of category 062: which form each item and each subfield has.
ghost use Rattle.std.specs.Prelude.{◌≡◌, true};
ghost use Rattle.asterix_fields.specs.Tables.{WellFormed};

use asterix_fields::Form::{Compound, Explicit, Extended, Fixed, Repeat, Spare};
use asterix_fields::{Subs, Uap, well_formed};

/// The category of system tracks.
pub const CATEGORY: u8 = 62;

// The items by FRN, seven to an octet of the FSPEC: each with its number in ASTERIX part 9 and its form, a
// compound one with the lengths of its subfields from subfield 1 on, seven to a primary octet. `repeat n` is a
// count and so many groups of n octets. That subfield 8 of 380 is one octet is this project's profile.
macro_rules! category_062 {
    ($build:ident) => {
        $build! {
            (010, Fixed 2),
            (spare, Spare),
            (015, Fixed 1),
            (070, Fixed 3),
            (105, Fixed 8),
            (100, Fixed 6),
            (185, Fixed 4),

            (210, Fixed 2),
            (060, Fixed 2),
            (245, Fixed 7),
            (380, Compound [3, 6, 2, 2, 2, 2, 2, 1, repeat 15, 2, 2, 7, 2, 2, 2, 2, 2, 2, 1, 8, 1, 6, 2, 1, repeat 8, 2, 2, 2]),
            (040, Fixed 2),
            (080, Extended 1),
            (290, Compound [1, 1, 1, 1, 2, 1, 1, 1, 1, 1]),

            (200, Fixed 1),
            (295, Compound [1, 1, 1, 1, 1, 1, 1, 1, 1, 1, 1, 1, 1, 1, 1, 1, 1, 1, 1, 1, 1, 1, 1, 1, 1, 1, 1, 1, 1, 1, 1]),
            (136, Fixed 2),
            (130, Fixed 2),
            (135, Fixed 2),
            (220, Fixed 2),
            (390, Compound [2, 7, 4, 1, 4, 1, 4, 4, 3, 2, 2, repeat 4, 6, 1, 7, 7, 2, 7]),

            (270, Extended 1),
            (300, Fixed 1),
            (110, Compound [1, 4, 6, 2, 2, 1, 1]),
            (120, Fixed 2),
            (510, Extended 3),
            (500, Compound [4, 2, 4, 1, 1, 2, 2, 1]),
            (340, Compound [2, 4, 2, 2, 2, 1]),

            (spare, Spare),
            (spare, Spare),
            (spare, Spare),
            (spare, Spare),
            (spare, Spare),
            (RE, Explicit),
            (SP, Explicit),
        }
    };
}

// How many subfields these are.
macro_rules! count {
    ($($size:literal)*) => { 0 $(+ one!($size))* };
}

macro_rules! one {
    ($size:literal) => {
        1
    };
}

// The forms of a table's items. The subfields of a compound one stand behind those of the compounds before it.
macro_rules! items {
    (@ [$($form:expr,)*] $first:expr;) => {
        [$($form),*]
    };
    (@ [$($form:expr,)*] $first:expr; ($item:tt, Compound [$($($repeat:ident)? $size:literal),*]), $($rest:tt)*) => {
        items!(@ [$($form,)* Compound { first: $first, count: count!($($size)*) },] $first + count!($($size)*); $($rest)*)
    };
    (@ [$($form:expr,)*] $first:expr; ($item:tt, $kind:ident $size:literal), $($rest:tt)*) => {
        items!(@ [$($form,)* $kind($size),] $first; $($rest)*)
    };
    (@ [$($form:expr,)*] $first:expr; ($item:tt, $kind:ident), $($rest:tt)*) => {
        items!(@ [$($form,)* $kind,] $first; $($rest)*)
    };
    ($($table:tt)*) => {
        items!(@ [] 0; $($table)*)
    };
}

// The forms of the subfields of a table's compound items, one item's after the other's.
macro_rules! subfields {
    (@ [$($form:expr,)*]) => {
        [$($form),*]
    };
    (@ [$($form:expr,)*] ($item:tt, Compound [$($($repeat:ident)? $size:literal),*]), $($rest:tt)*) => {
        subfields!(@ [$($form,)* $(subfield!($($repeat)? $size),)*] $($rest)*)
    };
    (@ [$($form:expr,)*] $row:tt, $($rest:tt)*) => {
        subfields!(@ [$($form,)*] $($rest)*)
    };
    ($($table:tt)*) => {
        subfields!(@ [] $($table)*)
    };
}

macro_rules! subfield {
    (repeat $size:literal) => {
        Repeat($size)
    };
    ($size:literal) => {
        Fixed($size)
    };
}

/// How many items the table of category 062 has, with the spare ones.
pub const ITEMS: usize = 35;

/// How many subfields its compound items have together.
pub const SUBFIELDS: usize = 108;

/// The items of category 062 by FRN, each with its form.
pub const CAT062: Uap<ITEMS> = Uap(category_062!(items));

/// The subfields of its compound items, one item's after the other's.
pub const SUBS062: Subs<SUBFIELDS> = Subs(category_062!(subfields));

// Whether a category's tables, each with its subfields, are well formed.
macro_rules! hold {
    ($($items:ident with $subfields:ident),+) => { $(well_formed(&$items, &$subfields))&&+ };
}

/// Whether records can be read by these tables: they can.
pub fn tables_hold() -> bool
    ensures tables { WellFormed CAT062.0 SUBS062.0 }
    ensures answer { result ≡ true }
{
    hold!(CAT062 with SUBS062)
}
