//! Limits of a field's value.

/// The least and the greatest value of a field in the site file's unit, or the least and the greatest length
/// of a text or a list.
#[derive(Clone, Copy)]
pub struct Limits {
    pub low: i32,
    pub high: i32,
}

/// Of a list of numbers how many there may be, and the greatest; the least is 0.
#[derive(Clone, Copy)]
pub struct ListLimits {
    pub count: Limits,
    pub highest: u16,
}

/// Of a list of pairs how many there may be, the range of their numbers, and how many of a site's units the site
/// file's is.
#[derive(Clone, Copy)]
pub struct PairLimits {
    pub count: Limits,
    pub number: Limits,
    pub units: u16,
}
