//! A volume that is made ready to be looked at often.
ghost use Rattle.std.specs.Prelude.{◌≡◌, ◌<◌, IsTrue, length, unsigned_abs};
ghost use Rattle.tick_sets.specs.Inequalities.{IsLook};
ghost use Rattle.track_motion.specs.Motions.{InRange};
ghost use Rattle.airspace_volumes.specs.Bounds.{PassesBy};

use crate::bounds::Bounds;
use site_types::Volume;
use std::marker::Model;
use track_motion::Motion;

/// A volume with the bounds of its polygon.
#[derive(Drop)]
pub struct Area<'a> {
    volume: &'a Volume,
    bounds: Bounds,
}

impl<'a> Model for Area<'a> {
    ghost use Rattle.site_types.specs.declared.airspace.Volume.{Volume};
    ghost use Rattle.airspace_volumes.specs.Bounds.{AreBoundsOf};

    ghost Value = { Volume };

    ghost view = { λ area. area.volume.now };

    ghost invariant = { λ area. AreBoundsOf area.bounds area.volume.now.points };
}

impl<'a> Area<'a> {
    /// The area of a volume, made once and used in every cycle.
    pub fn of(volume: &'a Volume) -> Area<'a>
        ensures { result ≡ volume.now }
    {
        let bounds = Bounds::of(volume.points.as_slice());
        Area { volume, bounds }
    }

    /// The volume.
    pub fn volume(&self) -> &'a Volume
        ensures { result.now ≡ self.now }
    {
        self.volume
    }

    /// The track passes by all points of the polygon, on one side of them, at each tick of `0..=look`.
    pub fn passes_by(&self, m: &Motion, look: i64) -> bool
        requires motion { InRange m.now }
        requires look { IsLook look }
        ensures passes { IsTrue result → PassesBy self.now.points m.now (unsigned_abs look) }
        ensures all { 0 < length self.now.points → PassesBy self.now.points m.now (unsigned_abs look) → IsTrue result }
    {
        self.bounds.stays_outside(m, look)
    }
}
