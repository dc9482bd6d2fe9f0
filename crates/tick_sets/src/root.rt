ghost use Rattle.std.specs.Prelude.{◌≡◌, ℕ, ◌+◌, ◌*◌, ◌^◌, ◌<◌, ◌≤◌};
ghost use Rattle.tick_sets.specs.Roots.{root};

/// The square root of `n`, rounded down.
///
/// `leading` is what a shift by `2*half` leaves of `n`, and `high` its root. What `leading` is above the
/// square of `high`, shifted back and divided by twice `high`, gives the lower part of the whole root, or
/// more than it; the steps down take away what is too much.
pub fn isqrt(n: u128) -> u128
    ensures square_le { result * result ≤ n }
    ensures next_square_gt { n < (result + 1) * (result + 1) }
    ensures only { (r : ℕ) → r * r ≤ n → n < (r + 1) * (r + 1) → result ≡ r }
    ensures root { result ≡ root n }
    ensures bound { result < 2 ^ 64 }
{
    if n < 0x1_0000_0000_0000_0000 {
        return word_root(n as u64) as u128;
    }
    let half = (65 - n.leading_zeros()) / 2;
    let leading = (n >> (2 * half)) as u64;
    let high = word_root(leading);
    let low = ((leading - high * high + 1) << (half - 1)) / high;
    let most = ((high as u128 + 1) << half) - 1;
    let mut root = (((high as u128) << half) + low as u128).min(most);
    while n < root * root {
        root -= 1;
    }
    root
}

/// The square root of one word, rounded down.
///
/// Newton's steps from a power of two at or above the root; the first of them is a shift.
fn word_root(n: u64) -> u64
    ensures square_le { result * result ≤ n }
    ensures next_square_gt { n < (result + 1) * (result + 1) }
    ensures bound { result < 2 ^ 32 }
{
    let half = (65 - n.leading_zeros()) / 2;
    let mut root = ((1 << half) + (n >> half)) / 2;
    while n < root * root {
        root = (root + n / root) / 2;
    }
    root
}
