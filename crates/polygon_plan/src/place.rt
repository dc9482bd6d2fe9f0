//! Whether a place is inside a polygon.
ghost use Rattle.std.specs.Prelude.{◌≡◌};
ghost use Rattle.polygon_plan.specs.Inside.{inside as inside_of};
ghost use Rattle.polygon_plan.specs.Ranges.{ArePoints};

use crate::edge::edge_at;

/// Whether (x, y), wherever it is, is inside the polygon of these points, in 1/512 m: whether an odd number of its edges
/// is to the right of the place, at its height. So the left and the lower border are inside, and the
/// right and the upper one are not. What a polygon that crosses itself goes round twice is outside.
pub fn inside(points: &[(i64, i64)], x: i64, y: i64) -> bool
    requires { ArePoints points.now }
    ensures { result ≡ inside_of points.now x y }
{
    let mut odd = false;
    for i in 0..points.len() {
        odd ^= edge_at(points, i).counts(x, y);
    }
    odd
}
