//! Ticks at which inequalities hold, each answer worked out by hand or by a walk.
use std::test::Fail;
use tick_sets::{TickHit, Ticks, isqrt, least_tick, linear, meet, odd_first, quadratic};

const TOP_A: i128 = 0x3_ffff_ffff;

const TOP_B: i128 = 0x7_ffff_ffff_ffff;

const TOP_C: i128 = 0xf_ffff_ffff_ffff_ffff;

const TOP_LINE: i128 = 0xf_ffff_ffff_ffff_ffff_ffff_ffff;

fn ticks(first: i64, last: i64) -> Ticks {
    Ticks::Span { first, last }
}

/// The same set by a walk over the ticks, one after another.
fn walked(a: i128, b: i128, c: i128, l: i64) -> Ticks {
    let mut found = Ticks::Empty;
    for tick in 0..l {
        found = with_tick(found, a, b, c, tick);
    }
    with_tick(found, a, b, c, l)
}

fn with_tick(found: Ticks, a: i128, b: i128, c: i128, tick: i64) -> Ticks {
    let t = tick as i128;
    let slope = a.wrapping_mul(t).wrapping_add(b).wrapping_add(b);
    if slope.wrapping_mul(t).wrapping_add(c) >= 0 {
        return found;
    }
    match found {
        Ticks::Empty => ticks(tick, tick),
        Ticks::Span { first, .. } => ticks(first, tick),
    }
}

#[test]
fn below_zero_rows(rt: HostRuntime) {
    let rows = [
        (1, -5, 16, 10, ticks(3, 7)),
        (1, -5, 25, 10, Ticks::Empty),
        (0, -1, 7, 10, ticks(4, 10)),
        (1, 0, -1, 0, ticks(0, 0)),
        (1, 0, 0, 0, Ticks::Empty),
        (0, 0, -1, 65535, ticks(0, 65535)),
        (TOP_A, -TOP_B, -TOP_C, 65535, ticks(0, 65535)),
        (TOP_A, TOP_B, TOP_C, 65535, Ticks::Empty),
        (TOP_A, TOP_B, -TOP_C, 65535, ticks(0, 54291)),
        (TOP_A, -TOP_B, TOP_C, 65535, Ticks::Empty),
        (TOP_A, -TOP_B, 0, 65535, ticks(1, 65535)),
        (0, -TOP_B, TOP_C, 65535, Ticks::Empty),
        (
            0,
            -TOP_B,
            0x8_0000_0000_0000_0000,
            65535,
            ticks(32769, 65535),
        ),
        // The vertex on a tick, on the last tick, and beyond it.
        (1, -32768, 1073741823, 65535, ticks(32768, 32768)),
        (1, -32768, 1073741824, 65535, Ticks::Empty),
        (1, -65535, 4294836224, 65535, ticks(65535, 65535)),
        (1, -70000, 4880063775, 65535, Ticks::Empty),
        (1, -70000, 4880063774, 65535, ticks(65535, 65535)),
    ];
    for (a, b, c, l, want) in rows {
        assert!(rt; 0 <= a && a <= TOP_A && -TOP_B <= b && b <= TOP_B);
        assert!(rt; -TOP_C <= c && c <= TOP_C && 0 <= l && l <= 65535);
        assert_eq!(rt; quadratic(a, b, c, l), want, "at {a} {b} {c} {l}");
    }
}

#[test]
fn below_zero_by_a_walk(rt: HostRuntime) {
    for a in 0..4i64 {
        for b in -12..13i64 {
            for c in -20..21i64 {
                for l in 0..10i64 {
                    assert!(rt; 0 <= a && -12 <= b && -20 <= c && 0 <= l);
                    let (a, b, c) = (a as i128, b as i128, c as i128);
                    let want = walked(a, b, c, l);
                    assert_eq!(rt; quadratic(a, b, c, l), want, "at {a} {b} {c} {l}");
                }
            }
        }
    }
}

#[test]
fn line_rows(rt: HostRuntime) {
    let rows = [
        (-2, 7, 10, ticks(0, 3)),
        (3, -7, 10, ticks(3, 10)),
        (TOP_LINE, -TOP_LINE, 65535, ticks(1, 65535)),
        (-TOP_LINE, TOP_LINE, 65535, ticks(0, 1)),
        (-1, TOP_LINE, 65535, ticks(0, 65535)),
        (1, -TOP_LINE, 65535, Ticks::Empty),
        (TOP_LINE, TOP_LINE, 65535, ticks(0, 65535)),
        (-TOP_LINE, -TOP_LINE, 65535, Ticks::Empty),
        (-1, 0, 0, ticks(0, 0)),
        (5, -1, 0, Ticks::Empty),
        (0, 0, 65535, ticks(0, 65535)),
        (0, -1, 65535, Ticks::Empty),
        (-7, 458745, 65535, ticks(0, 65535)),
        (-7, 458744, 65535, ticks(0, 65534)),
        (7, -458745, 65535, ticks(65535, 65535)),
        (7, -458746, 65535, Ticks::Empty),
    ];
    for (a, b, l, want) in rows {
        assert!(rt; -TOP_LINE <= a && a <= TOP_LINE && -TOP_LINE <= b && b <= TOP_LINE);
        assert!(rt; 0 <= l && l <= 65535);
        assert_eq!(rt; linear(a, b, l), want, "at {a} {b} {l}");
    }
}

#[test]
fn least_tick_rows(rt: HostRuntime) {
    let rows = [
        (2, -5, 10, 2),
        (2, -3, 10, 1),
        (2, -5, 1, 1),
        (0, -1, 65535, 65535),
        (0, 0, 65535, 0),
        (1, 0, 65535, 0),
        (1, -65535, 65535, 65535),
        (1, -65534, 65535, 65534),
        (2, -131069, 65535, 65534),
        (1, -TOP_B, 0, 0),
        (TOP_A, -TOP_B, 65535, 65535),
        (TOP_A, -0x2_0000_0000_0000, 65535, 32768),
        (TOP_A, TOP_B, 65535, 0),
    ];
    for (a, b, l, want) in rows {
        assert!(rt; 0 <= a && a <= TOP_A && -TOP_B <= b && b <= TOP_B && 0 <= l && l <= 65535);
        assert_eq!(rt; least_tick(a, b, l), want, "at {a} {b} {l}");
    }
}

#[test]
fn roots_of_squares_and_their_neighbours(rt: HostRuntime) {
    for (n, root) in [(0, 0), (1, 1), (2, 1), (3, 1), (4, 2), (8, 2), (9, 3)] {
        assert_eq!(rt; isqrt(n), root, "of {n}");
    }
    for bits in 1..64u32 {
        for root in [1u128 << bits, (1u128 << bits) + 1, (2u128 << bits) - 1] {
            let square = root.wrapping_mul(root);
            assert_eq!(rt;
                isqrt(square.wrapping_sub(1)),
                root.wrapping_sub(1),
                "below {root}"
            );
            assert_eq!(rt; isqrt(square), root, "at {root}");
            assert_eq!(rt; isqrt(square.wrapping_add(1)), root, "above {root}");
            assert_eq!(rt;
                isqrt(square.wrapping_add(root).wrapping_add(root)),
                root,
                "last {root}"
            );
        }
    }
    assert_eq!(rt; isqrt(u128::MAX), 0xffff_ffff_ffff_ffff);
}

#[test]
fn shared_ticks(rt: HostRuntime) {
    let rows = [
        (ticks(0, 5), ticks(3, 9), ticks(3, 5)),
        (ticks(3, 9), ticks(0, 5), ticks(3, 5)),
        (ticks(0, 9), ticks(3, 5), ticks(3, 5)),
        (ticks(0, 5), ticks(5, 9), ticks(5, 5)),
        (ticks(0, 4), ticks(5, 9), Ticks::Empty),
        (ticks(0, 4), Ticks::Empty, Ticks::Empty),
        (Ticks::Empty, ticks(0, 4), Ticks::Empty),
        (ticks(4, 0), ticks(0, 4), Ticks::Empty),
    ];
    for (a, b, want) in rows {
        assert_eq!(rt; meet(a, b), want);
    }
}

#[test]
fn first_ticks_in_an_odd_number(rt: HostRuntime) -> Result<(), Fail> {
    let two = [ticks(0, 5), ticks(3, 9)];
    let joined = [ticks(0, 5), ticks(6, 9)];
    let touching = [ticks(0, 5), ticks(5, 9)];
    let twice = [ticks(2, 5), ticks(2, 5), Ticks::Empty, ticks(9, 2)];
    let whole = [ticks(i64::MIN, i64::MAX)];
    let tails = [ticks(0, i64::MAX), ticks(5, i64::MAX)];
    let rows = [
        (two.as_slice(), ticks(3, 20), Some(6)),
        (two.as_slice(), ticks(0, 20), Some(0)),
        (two.as_slice(), ticks(3, 5), None),
        (two.as_slice(), ticks(10, 20), None),
        (two.as_slice(), ticks(-9, -1), None),
        (two.as_slice(), ticks(-9, 0), Some(0)),
        (two.as_slice(), Ticks::Empty, None),
        (two.as_slice(), ticks(2, 1), None),
        (joined.as_slice(), ticks(6, 20), Some(6)),
        (touching.as_slice(), ticks(5, 20), Some(6)),
        (twice.as_slice(), ticks(0, 20), None),
        (whole.as_slice(), ticks(i64::MAX, i64::MAX), Some(i64::MAX)),
        (whole.as_slice(), ticks(i64::MIN, i64::MAX), Some(i64::MIN)),
        (tails.as_slice(), ticks(1, 9), Some(1)),
        (tails.as_slice(), ticks(5, i64::MAX), None),
    ];
    for (sets, within, want) in rows {
        assert_eq!(rt; odd_first(rt.alloc(), sets, within)?, want);
    }
    Ok(())
}

/// A hit is urgent up to the limit.
#[test]
fn urgent_hits(rt: HostRuntime) {
    let rows = [
        (0, 0, true),
        (1, 0, false),
        (384, 384, true),
        (385, 384, false),
    ];
    for (first, limit, urgent) in rows {
        assert_eq!(rt; TickHit::from_tick(first, limit), TickHit { first, urgent });
    }
}
