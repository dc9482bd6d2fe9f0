//! The ground nets.
ghost use Rattle.std.specs.Prelude.{◌≡◌, ◌<◌};
ghost use Rattle.site_types.specs.Nets.{place as place_of};

/// The ground nets, in the order in which their subjects stand.
#[derive(Clone, Copy, Debug, PartialEq, Eq, PartialOrd, Ord)]
pub enum Net {
    /// Short term conflict alert.
    Stca,
    /// Minimum safe altitude warning.
    Msaw,
    /// Area proximity warning.
    Apw,
    /// Approach path monitor.
    Apm,
}

/// Where the nets stand in lists of four.
pub const STCA: usize = 0;

pub const MSAW: usize = 1;

pub const APW: usize = 2;

pub const APM: usize = 3;

impl Net {
    /// The net's place in lists of four.
    pub fn place(self) -> usize
        ensures value { result ≡ place_of self }
        ensures inside { result < 4 }
    {
        match self {
            Net::Stca => STCA,
            Net::Msaw => MSAW,
            Net::Apw => APW,
            Net::Apm => APM,
        }
    }
}
