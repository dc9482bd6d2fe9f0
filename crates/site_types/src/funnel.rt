//! Approach funnels that a site file sets.
ghost use Rattle.std.specs.Prelude.{◌≡◌};

use std::marker::Model;

/// The approach to a runway: who flies it is captured, and is then to stay between two slopes and two sides.
#[derive(Clone, Copy, Debug, PartialEq, Eq)]
pub struct Funnel {
    /// The landing threshold on the system plane, in 1/512 m.
    pub x: i64,
    pub y: i64,
    /// The landing direction, a vector of any length; not both are 0.
    pub dx: i64,
    pub dy: i64,
    /// The threshold's altitude, in feet.
    pub elevation: i64,
    /// How far before the threshold the funnel begins, in metres.
    pub reach: i64,
    /// The greatest altitude of a captured track, in 1/30,720 of 25 ft.
    pub ceiling: i64,
    /// How far beside the centre line a captured track is: at the threshold in metres, and how much more for each
    /// 10,000 m before it.
    pub capture_half: i64,
    pub capture_side: i64,
    /// How far beside the centre line a track may be, likewise.
    pub half: i64,
    pub side: i64,
    /// The lower slope: feet above the elevation at the threshold, and how much more for each 10,000 m before it.
    pub low_base: i64,
    pub low_rise: i64,
    /// The upper slope, likewise.
    pub high_base: i64,
    pub high_rise: i64,
}

/// Approach funnels in file order.
#[derive(Debug, Drop)]
pub struct Funnels {
    funnels: Vec<Funnel>,
}

impl Model for Funnels {
    ghost use Rattle.std.specs.Prelude.{List};
    ghost use Rattle.site_types.specs.declared.funnel.Funnel.{Funnel};

    ghost Value = { List Funnel };

    ghost view = { λ list. list.funnels.items };
}

impl Funnels {
    /// These funnels as a list.
    pub fn new(funnels: Vec<Funnel>) -> Funnels
        ensures { result ≡ funnels.items }
    {
        Funnels { funnels }
    }

    /// The funnels, to read them.
    pub fn as_slice(&self) -> &[Funnel]
        ensures { result.now ≡ self.now }
    {
        self.funnels.as_slice()
    }

    /// The funnels, to keep them.
    pub fn into_vec(self) -> Vec<Funnel>
        ensures { result.items ≡ self }
    {
        self.funnels
    }
}
