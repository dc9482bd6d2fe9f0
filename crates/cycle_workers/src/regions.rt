//! Where which parameter set holds.
ghost use Rattle.std.specs.Prelude.{◌≡◌, ◌<◌, ◌&&◌, int_le, length};
ghost use Rattle.polygon_plan.specs.Ranges.{ArePoints, IsPlace};
ghost use Rattle.site_types.specs.Ranges.{IsPolygon, IsSite};
ghost use Rattle.track_motion.specs.Motions.{InRange};
ghost use Rattle.cycle_workers.specs.Eligible.{is_in_region as in_region, set_of as set_number};

use polygon_plan::inside;
use site_types::{Region, Site};
use track_motion::Motion;

/// The level of the motion at tick 0 is from the region's floor to its ceiling.
fn is_in_band(m: &Motion, region: &Region) -> bool
    ensures { result ≡ (int_le region.now.floor m.now.z && int_le m.now.z region.now.ceiling) }
{
    region.floor <= m.z && m.z <= region.ceiling
}

/// The place and the level of the motion at tick 0 are in the region.
fn is_in_region(m: &Motion, region: &Region) -> bool
    requires motion { InRange m.now }
    requires polygon { IsPolygon region.now.points }
    ensures { result ≡ in_region m.now region.now }
{
    is_in_band(m, region) && inside(region.points.as_slice(), m.x, m.y)
}

/// The number of the parameter set of a row with this motion.
pub fn set_of(site: &Site, m: &Motion) -> u32
    requires site { IsSite site.now }
    requires motion { InRange m.now }
    ensures set { result ≡ set_number site.now m.now }
    ensures range { result < length site.now.sets }
{
    let regions = site.regions.as_slice();
    for region in regions {
        if is_in_region(m, region) {
            return region.set;
        }
    }
    0
}
