//! What a site file sets.
ghost use Rattle.std.specs.Prelude.{◌≡◌, pos};
ghost use Rattle.site_types.specs.Looks.{look_of};
ghost use Rattle.site_types.specs.Nets.{enables, place};
ghost use Rattle.site_types.specs.Ranges.{IsSet};
ghost use Rattle.tick_sets.specs.Inequalities.{IsLook};

use crate::airspace::{Regions, Volumes};
use crate::file_name::FileName;
use crate::funnel::Funnels;
use crate::net::Net;
use std::marker::Model;

/// When a net's alert is on: after m hits in n cycles, and as long as a hit is at most `hold` cycles ago.
#[derive(Clone, Copy, Debug, PartialEq, Eq)]
pub struct Confirm {
    pub m: u32,
    pub n: u32,
    pub hold: u32,
}

/// A parameter set. Of lists of four each member is a net's, at its place. Times are in ticks of 1/128 s,
/// lengths in 1/512 m, heights in 1/30,720 of 25 ft.
#[derive(Clone, Copy, Debug, PartialEq, Eq)]
pub struct Set {
    /// Which nets the set enables.
    pub enabled: [bool; 4],
    /// How far each net looks ahead.
    pub look: [i64; 4],
    /// The limits of linear prediction: horizontal, vertical up to `split`, and vertical above it.
    pub h: i64,
    pub v_low: i64,
    pub v_high: i64,
    /// The level up to which the lower vertical limits hold.
    pub split: i64,
    /// The limits of current proximity, likewise.
    pub now_h: i64,
    pub now_v_low: i64,
    pub now_v_high: i64,
    /// A hit is urgent where its first tick is at most this.
    pub urgent: i64,
}

impl Set {
    /// The last tick that the set looks ahead to for the net.
    pub fn look_ahead(&self, net: Net) -> i64
        requires { IsSet self.now }
        ensures look { result ≡ pos (look_of (place net) self.now) }
        ensures range { IsLook result }
    {
        self.look[net.place()]
    }

    /// The set enables the net.
    pub fn enables(&self, net: Net) -> bool
        ensures { result ≡ enables net self.now }
    {
        self.enabled[net.place()]
    }
}

/// Mode 3/A codes.
#[derive(Debug, Drop)]
pub struct Codes {
    codes: Vec<u16>,
}

impl Model for Codes {
    ghost use Rattle.std.specs.Prelude.{List, ℕ};

    ghost Value = { List ℕ };

    ghost view = { λ list. list.codes.items };
}

impl Codes {
    /// These codes as a list.
    pub fn new(codes: Vec<u16>) -> Codes
        ensures { result ≡ codes.items }
    {
        Codes { codes }
    }

    /// The codes, to read them.
    pub fn as_slice(&self) -> &[u16]
        ensures { result.now ≡ self.now }
    {
        self.codes.as_slice()
    }

    /// The codes, to keep them.
    pub fn into_vec(self) -> Vec<u16>
        ensures { result.items ≡ self }
    {
        self.codes
    }
}

/// Parameter sets in file order.
#[derive(Debug, Drop)]
pub struct Sets {
    sets: Vec<Set>,
}

impl Model for Sets {
    ghost use Rattle.std.specs.Prelude.{List};
    ghost use Rattle.site_types.specs.declared.site.Set.{Set};

    ghost Value = { List Set };

    ghost view = { λ list. list.sets.items };
}

impl Sets {
    /// These sets as a list.
    pub fn new(sets: Vec<Set>) -> Sets
        ensures { result ≡ sets.items }
    {
        Sets { sets }
    }

    /// The sets, to read them.
    pub fn as_slice(&self) -> &[Set]
        ensures { result.now ≡ self.now }
    {
        self.sets.as_slice()
    }

    /// The sets, to keep them.
    pub fn into_vec(self) -> Vec<Set>
        ensures { result.items ≡ self }
    {
        self.sets
    }
}

/// What a site file sets.
#[derive(Debug, Drop)]
pub struct Site {
    /// System area code and system identification code of the messages' source.
    pub sac: u8,
    pub sic: u8,
    /// When cycle 0 begins, and how long each cycle lasts, in ticks of 1/128 s.
    pub start: i64,
    pub period: i64,
    /// How long ago a row's stamp may be, in ticks of 1/128 s.
    pub timeout: i64,
    /// The QNH correction in 25 ft.
    pub qnh: i32,
    /// The codes of tracks that no net warns of.
    pub codes: Codes,
    /// The terrain's file, where there is one.
    pub terrain: Option<FileName>,
    /// When each net's alerts are on.
    pub confirm: [Confirm; 4],
    /// At least one.
    pub sets: Sets,
    /// Where other sets hold than the first.
    pub regions: Regions,
    /// The volumes that APW warns of.
    pub volumes: Volumes,
    /// The funnels that APM keeps approaches in.
    pub funnels: Funnels,
}
