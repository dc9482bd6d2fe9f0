//! Laws of the definitions: each is the contract of a function that does nothing.
ghost use Rattle.std.specs.Prelude.{◌≡◌, ◌↔◌, ℕ, ◌<◌, ℤ, pos, ◌≤ℤ◌, ◌<ℤ◌, unsigned_abs, Bool, Option, find};
ghost use Rattle.tick_sets.specs.Inequalities.{IsLine, IsLook, IsParabola, line_at, parabola_at};
ghost use Rattle.tick_sets.specs.Plane.{scalar_product, squared_length};
ghost use Rattle.tick_sets.specs.Searches.{Finds, ticks_to};

/// The ranges: the last tick of a look-ahead, and the numbers of a line and of a parabola, here 2^100, 2^34, 2^51
/// and 2^68.
pub fn numbers()
    ensures look { (l : ℤ) → IsLook l ↔ ((pos 0 ≤ℤ l) × (l ≤ℤ pos 65535)) }
    ensures line { (a b : ℤ) → IsLine a b ↔ ((unsigned_abs a < 1267650600228229401496703205376) × (unsigned_abs b < 1267650600228229401496703205376)) }
    ensures parabola { (a b c : ℤ) → IsParabola a b c ↔ ((pos 0 ≤ℤ a) × (a <ℤ pos 17179869184) × (unsigned_abs b < 2251799813685248) × (unsigned_abs c < 295147905179352825856)) }
{}

/// A vector that changes by the same (u, v) at each tick: the square of its length is a parabola over
/// the ticks. So is the square of the distance of two tracks that keep their velocities.
pub fn squared_length_is_parabola()
    ensures { (x y u v t : ℤ) → squared_length (line_at u x t) (line_at v y t) ≡
        parabola_at (squared_length u v) (scalar_product x y u v) (squared_length x y) t }
{}

/// A search over the ticks of a look-ahead finds the first at which the test passes, or nothing where it fails at
/// all of them; and only that is what it finds.
#[tactic(auto, using(crate::proofs::Searches::finds, crate::proofs::Searches::found_is))]
pub fn searches_find_the_first()
    ensures finds { (p : ℕ → Bool) (look : ℕ) → Finds p look (find p (ticks_to look)) }
    ensures only { (p : ℕ → Bool) (look : ℕ) (found : Option ℕ) → Finds p look found → find p (ticks_to look) ≡ found }
{}
