//! The approach funnels of a site file, in the order in which their fields are checked.

ghost use Rattle.std.specs.Prelude.{◌≡◌, ◌≢◌, IfOk, IfErr, Ok, Err};
ghost use Rattle.site_fields.specs.declared.fault.SiteFault.TheVariants.{NoMemory};
ghost use Rattle.site_fields.specs.Kinds.{place};
ghost use Rattle.site_types.specs.Ranges.{IsFunnel, AreFunnels};
ghost use Rattle.site_params.specs.Parts.{IsDirection, IsThreshold, IsCapture, AreBounds};
ghost use Rattle.site_params.specs.Funnels.{direction_of, threshold_of, capture_of, bounds_of, funnel_of, funnels_of};

use site_fields::{Place, ReadEntry, SiteFault, entries_of};
use site_types::{
    BASE_FEET, CAPTURE_FEET, DIRECTION, ELEVATION_FEET, FUNNEL_COUNT, Funnel, Funnels, HALF_METRES,
    PLACE_METRES, REACH_METRES, RISE_FEET, SIDE_METRES,
};
use std::alloc::Global;

/// Where and which way to land, in the units of a funnel.
#[derive(Clone, Copy)]
pub struct Threshold {
    x: i64,
    y: i64,
    dx: i64,
    dy: i64,
    elevation: i64,
}

/// Which tracks are captured, in the units of a funnel.
#[derive(Clone, Copy)]
pub struct Capture {
    ceiling: i64,
    half: i64,
    side: i64,
}

/// The two sides and the two slopes, in the units of a funnel.
#[derive(Clone, Copy)]
pub struct Bounds {
    half: i64,
    side: i64,
    low_base: i64,
    low_rise: i64,
    high_base: i64,
    high_rise: i64,
}

/// The landing direction, in which not both numbers are 0.
#[tactic(auto, unfolding(crate::specs::Funnels::direction_of))]
fn direction_of(at: &Place) -> Result<(i64, i64), SiteFault>
    ensures value { result ≡ direction_of (place at.now) }
    ensures inside { IfOk result IsDirection }
{
    let dx = at.unscaled(49, "dx", DIRECTION)?;
    let dy = at.unscaled(50, "dy", DIRECTION)?;
    if dx == 0 && dy == 0 {
        return Err(SiteFault::Range(at.field(50), 0));
    }
    Ok((dx, dy))
}

/// Where and which way to land.
#[tactic(auto, unfolding(crate::specs::Funnels::threshold_of))]
fn threshold_of(at: &Place) -> Result<Threshold, SiteFault>
    ensures value { result ≡ threshold_of (place at.now) }
    ensures inside { IfOk result IsThreshold }
{
    let x = at.metres(47, "x", PLACE_METRES)?;
    let y = at.metres(48, "y", PLACE_METRES)?;
    let (dx, dy) = direction_of(at)?;
    let elevation = at.unscaled(51, "elevation", ELEVATION_FEET)?;
    Ok(Threshold {
        x,
        y,
        dx,
        dy,
        elevation,
    })
}

/// Which tracks are captured.
#[tactic(auto, unfolding(crate::specs::Funnels::capture_of))]
fn capture_of(at: &Place) -> Result<Capture, SiteFault>
    ensures value { result ≡ capture_of (place at.now) }
    ensures inside { IfOk result IsCapture }
{
    let ceiling = at.height(53, "ceiling", CAPTURE_FEET)?;
    let half = at.unscaled(54, "capture_half", HALF_METRES)?;
    let side = at.unscaled(55, "capture_side", SIDE_METRES)?;
    Ok(Capture {
        ceiling,
        half,
        side,
    })
}

/// The two sides and the two slopes.
#[tactic(auto, unfolding(crate::specs::Funnels::bounds_of))]
fn bounds_of(at: &Place) -> Result<Bounds, SiteFault>
    ensures value { result ≡ bounds_of (place at.now) }
    ensures inside { IfOk result AreBounds }
{
    let half = at.unscaled(56, "half", HALF_METRES)?;
    let side = at.unscaled(57, "side", SIDE_METRES)?;
    let low_base = at.unscaled(58, "low_base", BASE_FEET)?;
    let low_rise = at.unscaled(59, "low_rise", RISE_FEET)?;
    let high_base = at.unscaled(60, "high_base", BASE_FEET)?;
    let high_rise = at.unscaled(61, "high_rise", RISE_FEET)?;
    Ok(Bounds {
        half,
        side,
        low_base,
        low_rise,
        high_base,
        high_rise,
    })
}

/// A funnel, besides its name.
#[tactic(auto, unfolding(crate::specs::Funnels::funnel_of))]
fn funnel_of(at: &Place) -> Result<Funnel, SiteFault>
    ensures value { result ≡ funnel_of (place at.now) }
    ensures inside { IfOk result IsFunnel }
{
    let threshold = threshold_of(at)?;
    let reach = at.unscaled(52, "reach", REACH_METRES)?;
    let capture = capture_of(at)?;
    let bounds = bounds_of(at)?;
    Ok(Funnel {
        x: threshold.x,
        y: threshold.y,
        dx: threshold.dx,
        dy: threshold.dy,
        elevation: threshold.elevation,
        reach,
        ceiling: capture.ceiling,
        capture_half: capture.half,
        capture_side: capture.side,
        half: bounds.half,
        side: bounds.side,
        low_base: bounds.low_base,
        low_rise: bounds.low_rise,
        high_base: bounds.high_base,
        high_rise: bounds.high_rise,
    })
}

/// Reads a funnel.
#[derive(Clone, Copy)]
struct FunnelFields;

impl ReadEntry for FunnelFields {
    type Entry = Funnel;

    ghost reading = { λ _ at. funnel_of at };

    ghost IsRead = { λ _ funnel. IsFunnel funnel };

    fn read(&self, _alloc: Global, at: &Place) -> Result<Funnel, SiteFault> {
        funnel_of(at)
    }
}

/// The approach funnels.
#[tactic(auto, unfolding(crate::specs::Funnels::funnels_of))]
pub fn funnels_of(alloc: Global, at: &Place) -> Result<Funnels, SiteFault>
    ensures ok { IfOk result (λ found. funnels_of (place at.now) ≡ Ok found) }
    ensures fault { IfErr result (λ e. e ≢ NoMemory → funnels_of (place at.now) ≡ Err e) }
    ensures inside { IfOk result AreFunnels }
{
    let tables = at.optional_tables(alloc, 45, "funnel", FUNNEL_COUNT)?;
    let funnels = entries_of(alloc, 46, "name", &FunnelFields, &tables)?;
    Ok(Funnels::new(funnels.list))
}
