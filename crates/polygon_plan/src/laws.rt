//! Laws of the definition of inside: each is the contract of a function that does nothing.
ghost use Rattle.std.specs.Prelude.{◌≡◌, ◌++◌, ℤ, List, [], false, reverse};
ghost use Rattle.tick_sets.specs.Inequalities.{IsLook, line_at};
ghost use Rattle.track_motion.specs.declared.motion.Motion.{Motion};
ghost use Rattle.track_motion.specs.Motions.{InRange};
ghost use Rattle.polygon_plan.specs.Inside.{counts, inside};
ghost use Rattle.polygon_plan.specs.Ranges.{IsPlace};

/// Nothing is inside a polygon of no points.
pub fn no_points_have_no_inside()
    ensures { (x y : ℤ) → inside [] x y ≡ false }
{}

/// An edge whose ends are equally high counts nowhere.
pub fn level_edges_never_count()
    ensures { (x y left right height : ℤ) → counts x y ((left, height), (right, height)) ≡ false }
{}

/// It makes no difference at which of its points a polygon begins.
pub fn any_point_is_the_first()
    ensures { (start end : List (ℤ × ℤ)) (x y : ℤ) → inside (end ++ start) x y ≡ inside (start ++ end) x y }
{}

/// It makes no difference which way round a polygon is told.
pub fn either_way_round()
    ensures { (points : List (ℤ × ℤ)) (x y : ℤ) → inside (reverse points) x y ≡ inside points x y }
{}

/// At each tick of a look-ahead a motion in range is at most twice as far from 0 as a point may be.
pub fn motions_keep_to_places()
    ensures { (m : Motion) (t : ℤ) → InRange m → IsLook t → IsPlace (line_at m.vx m.x t) (line_at m.vy m.y t) }
{}
