//! A funnel that is made ready to be looked at often.
ghost use Rattle.std.specs.Prelude.{◌≡◌, ◌*ℤ◌, pos};
ghost use Rattle.site_types.specs.Limits.{IsWithin};
ghost use Rattle.site_types.specs.Ranges.{IsFunnel};
ghost use Rattle.site_types.specs.declared.ranges.TheConstants.{HALF_METRES, RISE_FEET, SIDE_METRES};
ghost use Rattle.approach_funnel.specs.Approaches.{length_of};

use crate::lines::Limit;
use crate::units::{RUN_LENGTH, RUN_METRES, RUN_SHARE, STEP_SHARE};
use site_types::Funnel;
use std::marker::Model;
use tick_sets::isqrt;

/// A funnel with the length of its landing direction, rounded down.
#[derive(Drop)]
pub struct Approach<'a> {
    funnel: &'a Funnel,
    length: i64,
}

impl<'a> Model for Approach<'a> {
    ghost use Rattle.std.specs.Prelude.{◌≡◌};
    ghost use Rattle.site_types.specs.declared.funnel.Funnel.{Funnel};
    ghost use Rattle.approach_funnel.specs.Approaches.{length_of};

    ghost Value = { Funnel };

    ghost view = { λ approach. approach.funnel.now };

    ghost invariant = { λ approach. approach.length ≡ length_of approach.funnel.now };
}

impl<'a> Approach<'a> {
    /// The approach of a funnel, made once and used in every cycle.
    pub fn of(funnel: &'a Funnel) -> Approach<'a>
        requires { IsFunnel funnel.now }
        ensures { result ≡ funnel.now }
    {
        let squared = funnel.dx * funnel.dx + funnel.dy * funnel.dy;
        let length = isqrt(squared as u128) as i64;
        Approach { funnel, length }
    }

    /// The funnel.
    pub fn funnel(&self) -> &'a Funnel
        ensures { result.now ≡ self.now }
    {
        self.funnel
    }

    /// The length of its landing direction, rounded down.
    pub(crate) fn length(&self) -> i64
        ensures { result ≡ length_of self.now }
    {
        self.length
    }

    /// The limit of the offset, at a side so many metres from the centre line at the threshold, and so many more a run.
    pub(crate) fn side(&self, half: i64, side: i64) -> Limit
        requires funnel { IsFunnel self.now }
        requires half { IsWithin HALF_METRES half }
        requires side { IsWithin SIDE_METRES side }
        ensures weight { result.weight ≡ RUN_METRES }
        ensures share { result.share ≡ side }
        ensures base { result.base ≡ RUN_LENGTH *ℤ length_of self.now *ℤ half }
    {
        Limit {
            weight: RUN_METRES,
            share: side,
            base: RUN_LENGTH * self.length * half,
        }
    }

    /// The limit of the height over the slope's base, at a slope that rises so many feet a run.
    pub(crate) fn slope(&self, rise: i64) -> Limit
        requires funnel { IsFunnel self.now }
        requires rise { IsWithin RISE_FEET rise }
        ensures weight { result.weight ≡ RUN_SHARE *ℤ length_of self.now }
        ensures share { result.share ≡ STEP_SHARE *ℤ rise }
        ensures base { result.base ≡ pos 0 }
    {
        Limit {
            weight: RUN_SHARE * self.length,
            share: STEP_SHARE * rise,
            base: 0,
        }
    }
}
