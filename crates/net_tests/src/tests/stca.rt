// Expected values are worked out by hand: distances along one axis, and squares of whole numbers.
ghost use Rattle.std.specs.Prelude.{◌≡◌, ◌<◌};
ghost use Rattle.site_types.specs.Ranges.{IsSet};
ghost use Rattle.stca_fine.specs.Relative.{ArePair};

use super::sets::{SITE, expect_set};
use outside_io::Steps;
use site_types::Set;
use stca_fine::{StcaHit, examine};
use std::marker::Brand;
use std::process::Abort;
use std::sync::ledger::{Blank, Ledger};
use track_motion::Motion;

/// At rest at 33,000 ft, above the split.
const REST: Motion = Motion {
    x: 0,
    y: 0,
    vx: 0,
    vy: 0,
    z: 40_550_400,
    alt: 0,
    vz: 0,
};

/// So far from it that current proximity doesn't hold, and within the limit ahead: 11,718 half-metres.
const BESIDE: Motion = Motion {
    x: 3_000_000,
    ..REST
};

/// A hit ahead that isn't urgent.
const HIT: StcaHit = StcaHit {
    first: 0,
    closest: 0,
    chs: 0,
    mhs: 0,
    cvs: 0,
    mvs: 0,
    current: false,
    urgent: false,
};

/// A hit beside, at tick 0.
const HIT_BESIDE: StcaHit = StcaHit {
    chs: 11_718,
    mhs: 11_718,
    urgent: true,
    ..HIT
};

/// The hit of two motions that are in range, by a set whose values are.
fn examined(rt: &impl Abort, a: Motion, b: Motion, set: Set) -> Option<StcaHit> {
    assert!(rt; a.in_range());
    assert!(rt; b.in_range());
    expect_set(rt, &set);
    once(a, b, set)
}

fn once(a: Motion, b: Motion, set: Set) -> Option<StcaHit>
    requires pair { ArePair a b }
    requires set { IsSet set }
{
    counted::<Brand>(Blank::new(1), a, b, set)
}

/// The same, with a counter that ends at one step.
fn counted<L: Ledger>(blank: Blank, a: Motion, b: Motion, set: Set) -> Option<StcaHit>
    requires name { blank.name ≡ L.name }
    requires parts { blank.parts ≡ L.parts }
    requires some { 0 < blank.parts }
    requires pair { ArePair a b }
    requires set { IsSet set }
{
    let mut steps = Steps::<L>::new(blank);
    let hit = examine(&a, &b, &set, &mut steps);
    end_at_one(steps);
    hit
}

fn end_at_one<L: Ledger>(_steps: Steps<L>)
    requires { _steps ≡ 1 }
{}

#[test]
fn two_tracks_head_on(rt: HostRuntime) {
    let a = Motion { vx: 1_000, ..REST };
    let at = |x| Motion {
        x,
        vx: -1_000,
        ..REST
    };
    let hit = StcaHit {
        first: 2_750,
        closest: 5_120,
        chs: 40_000,
        ..HIT
    };
    assert_eq!(rt; examined(&rt, a, at(10_240_000), SITE), Some(hit));
    // At tick 2750 they are exactly at the limit. At 5121 they are 880 units apart.
    let later = StcaHit {
        first: 2_751,
        closest: 5_121,
        chs: 40_004,
        mhs: 3,
        ..HIT
    };
    assert_eq!(rt; examined(&rt, a, at(10_241_120), SITE), Some(later));
    // They are within the vertical limit at ticks 0 to 2559 alone.
    let climbing = Motion {
        vz: 480,
        ..at(10_240_000)
    };
    assert_eq!(rt; examined(&rt, a, climbing, SITE), None);
}

#[test]
fn one_behind_the_other(rt: HostRuntime) {
    let a = Motion { vx: 1_000, ..REST };
    let ahead = |x| Motion { x, ..a };
    let hit = StcaHit {
        chs: 18_518,
        mhs: 18_518,
        urgent: true,
        ..HIT
    };
    assert_eq!(rt; examined(&rt, a, ahead(4_740_608), SITE), Some(hit));
    assert_eq!(rt; examined(&rt, a, ahead(4_741_632), SITE), None);
}

#[test]
fn horizontal_limit_is_outside(rt: HostRuntime) {
    // At tick 0.
    let at = |x| Motion { x, ..REST };
    let hit = StcaHit {
        chs: 18_519,
        mhs: 18_519,
        urgent: true,
        ..HIT
    };
    assert_eq!(rt; examined(&rt, REST, at(4_741_119), SITE), Some(hit));
    assert_eq!(rt; examined(&rt, REST, at(4_741_120), SITE), None);
    // In between: 3079 units on each side of the closest place, 9,480,241 of 9,482,239 square units.
    let passing = |y| Motion {
        x: 5_120_000,
        y,
        vx: -1_000,
        ..REST
    };
    let hit = StcaHit {
        first: 5_117,
        closest: 5_120,
        chs: 27_257,
        mhs: 18_519,
        ..HIT
    };
    assert_eq!(rt; examined(&rt, REST, passing(4_741_119), SITE), Some(hit));
    assert_eq!(rt; examined(&rt, REST, passing(4_741_120), SITE), None);
    // At the last tick, 1,536,000 units on.
    let coming = |x| Motion {
        x,
        vx: -100,
        ..REST
    };
    let hit = StcaHit {
        first: 15_360,
        closest: 15_360,
        chs: 24_519,
        mhs: 18_519,
        ..HIT
    };
    assert_eq!(rt; examined(&rt, REST, coming(6_277_119), SITE), Some(hit));
    assert_eq!(rt; examined(&rt, REST, coming(6_277_120), SITE), None);
}

#[test]
fn vertical_limit_is_outside(rt: HostRuntime) {
    // At tick 0, above and below.
    let at = |z| Motion { z, ..BESIDE };
    let hit = StcaHit {
        cvs: 39,
        mvs: 39,
        ..HIT_BESIDE
    };
    assert_eq!(rt; examined(&rt, REST, at(41_779_199), SITE), Some(hit));
    assert_eq!(rt; examined(&rt, REST, at(41_779_200), SITE), None);
    assert_eq!(rt; examined(&rt, REST, at(39_321_601), SITE), Some(hit));
    assert_eq!(rt; examined(&rt, REST, at(39_321_600), SITE), None);
    // At the last tick, 1,536,000 units on.
    let sinking = |z| Motion {
        z,
        vz: -100,
        ..BESIDE
    };
    let hit = StcaHit {
        first: 15_360,
        cvs: 89,
        mvs: 89,
        urgent: false,
        ..HIT_BESIDE
    };
    assert_eq!(rt; examined(&rt, REST, sinking(43_315_199), SITE), Some(hit));
    assert_eq!(rt; examined(&rt, REST, sinking(43_315_200), SITE), None);
}

#[test]
fn levels_cross_in_climb_and_descent(rt: HostRuntime) {
    let climbing = Motion { vz: 240, ..REST };
    let descending = |z| Motion {
        z,
        vz: -240,
        ..BESIDE
    };
    // 2,457,599 units too many at tick 0, 480 fewer at each tick.
    let hit = StcaHit {
        first: 5_120,
        cvs: 119,
        mvs: 119,
        urgent: false,
        ..HIT_BESIDE
    };
    assert_eq!(rt;
        examined(&rt, climbing, descending(44_236_799), SITE),
        Some(hit)
    );
    // One unit more, and they are exactly at the limit at tick 5120.
    let later = StcaHit {
        first: 5_121,
        cvs: 120,
        mvs: 120,
        ..hit
    };
    assert_eq!(rt;
        examined(&rt, climbing, descending(44_236_800), SITE),
        Some(later)
    );
}

#[test]
fn levels_at_the_split_have_the_lower_limit(rt: HostRuntime) {
    let at = |z, vz| Motion { z, vz, ..REST };
    let below = |z, vz| Motion { z, vz, ..BESIDE };
    let hit = |cvs| StcaHit {
        cvs,
        mvs: cvs,
        ..HIT_BESIDE
    };
    let split = 35_635_200;
    assert_eq!(rt;
        examined(&rt, at(split, 0), below(34_652_160, 0), SITE),
        None
    );
    assert_eq!(rt;
        examined(&rt, at(split, 0), below(34_652_161, 0), SITE),
        Some(hit(31))
    );
    assert_eq!(rt;
        examined(&rt, at(35_635_201, 0), below(34_652_161, 0), SITE),
        Some(hit(32))
    );
    // The levels at tick 0 count, wherever the two are later.
    assert_eq!(rt;
        examined(&rt, at(split, 100), below(34_652_160, 100), SITE),
        None
    );
    assert_eq!(rt;
        examined(&rt, at(35_635_201, -100), below(34_652_161, -100), SITE),
        Some(hit(32))
    );
}

#[test]
fn between_two_ticks_is_no_conflict(rt: HostRuntime) {
    // 1 m, passed at 4 m a tick: 1,000 units before the other at tick 100, and as many behind it at 101.
    let narrow = Set {
        h: 512,
        now_h: 512,
        ..SITE
    };
    let a = Motion { vx: 1_000, ..REST };
    let coming = |x| Motion {
        x,
        vx: -1_000,
        ..REST
    };
    let hit = StcaHit {
        first: 100,
        closest: 100,
        chs: 781,
        urgent: true,
        ..HIT
    };
    assert_eq!(rt; examined(&rt, a, coming(201_000), narrow), None);
    assert_eq!(rt; examined(&rt, a, coming(200_000), narrow), Some(hit));
    // 25 ft, passed at 65,536 units a tick.
    let flat = Set {
        v_low: 30_720,
        v_high: 30_720,
        now_v_low: 30_720,
        now_v_high: 30_720,
        ..SITE
    };
    let climbing = Motion {
        z: 0,
        vz: 32_768,
        ..REST
    };
    let sinking = |z| Motion {
        z,
        vz: -32_768,
        ..BESIDE
    };
    let hit = StcaHit {
        first: 10,
        cvs: 21,
        mvs: 21,
        ..HIT_BESIDE
    };
    assert_eq!(rt; examined(&rt, climbing, sinking(688_128), flat), None);
    assert_eq!(rt; examined(&rt, climbing, sinking(655_360), flat), Some(hit));
}

#[test]
fn fastest_tracks_at_both_ends_of_the_plane(rt: HostRuntime) {
    let at = |place, speed| Motion {
        x: place,
        y: place,
        vx: speed,
        vy: speed,
        ..REST
    };
    let far = 0x1_0000_0000;
    let fast = 0x8000;
    assert_eq!(rt; examined(&rt, at(-far, fast), at(far, -fast), SITE), None);
    assert_eq!(rt; examined(&rt, at(-far, -fast), at(far, fast), SITE), None);
    // They meet at the last tick: 51 ticks before it they are 4,726,687 units apart, and 52 before it 4,819,367.
    let meeting = 503_316_480;
    let hit = StcaHit {
        first: 15_309,
        closest: 15_360,
        chs: 5_560_914,
        ..HIT
    };
    assert_eq!(rt;
        examined(&rt, at(-meeting, fast), at(meeting, -fast), SITE),
        Some(hit)
    );
}

#[test]
fn equal_motions_are_current(rt: HostRuntime) {
    let corner = Motion {
        x: 0x1_0000_0000,
        y: -0x1_0000_0000,
        vx: 0x8000,
        vy: -0x8000,
        ..REST
    };
    let hit = StcaHit {
        current: true,
        urgent: true,
        ..HIT
    };
    assert_eq!(rt; examined(&rt, corner, corner, SITE), Some(hit));
}

#[test]
fn current_limits_are_outside(rt: HostRuntime) {
    let hit = |current, separation| StcaHit {
        chs: separation,
        mhs: separation as u16,
        current,
        urgent: true,
        ..HIT
    };
    let at = |x| Motion { x, ..REST };
    assert_eq!(rt;
        examined(&rt, REST, at(2_370_559), SITE),
        Some(hit(true, 9_259))
    );
    assert_eq!(rt;
        examined(&rt, REST, at(2_370_560), SITE),
        Some(hit(false, 9_260))
    );
    let above = |z| Motion { z, ..at(1_000) };
    let level = |current, cvs| StcaHit {
        cvs,
        mvs: cvs,
        ..hit(current, 3)
    };
    assert_eq!(rt;
        examined(&rt, REST, above(41_287_679), SITE),
        Some(level(true, 23))
    );
    assert_eq!(rt;
        examined(&rt, REST, above(41_287_680), SITE),
        Some(level(false, 24))
    );
    let low = Motion { z: 0, ..REST };
    assert_eq!(rt;
        examined(&rt, low, above(614_399), SITE),
        Some(level(true, 19))
    );
    assert_eq!(rt;
        examined(&rt, low, above(614_400), SITE),
        Some(level(false, 20))
    );
    // Drawing apart by one unit a tick.
    let parting = Motion { vx: 1, ..at(1_000) };
    assert_eq!(rt; examined(&rt, REST, parting, SITE), Some(hit(false, 3)));
}

#[test]
fn current_limit_above_the_limit_ahead(rt: HostRuntime) {
    // 1,000 m ahead and 5,000 m now; no first tick but 0 is urgent.
    let set = Set {
        h: 512_000,
        now_h: 2_560_000,
        urgent: 0,
        ..SITE
    };
    let at = |vx| Motion {
        x: 1_536_000,
        vx,
        ..REST
    };
    let hit = StcaHit {
        chs: 6_000,
        mhs: 6_000,
        current: true,
        urgent: true,
        ..HIT
    };
    assert_eq!(rt; examined(&rt, REST, at(0), set), Some(hit));
    assert_eq!(rt; examined(&rt, REST, at(1), set), None);
    // Linear prediction holds from tick 10,241 on alone; the first tick is 0 all the same.
    let closing = StcaHit {
        closest: 15_360,
        mhs: 0,
        ..hit
    };
    assert_eq!(rt; examined(&rt, REST, at(-100), set), Some(closing));
}

#[test]
fn urgent_up_to_its_tick(rt: HostRuntime) {
    let a = Motion { vx: 1_000, ..REST };
    let at = |x| Motion {
        x,
        vx: -1_000,
        ..REST
    };
    let hit = StcaHit {
        first: 2_560,
        closest: 4_931,
        chs: 38_519,
        mhs: 3,
        urgent: true,
        ..HIT
    };
    assert_eq!(rt; examined(&rt, a, at(9_861_119), SITE), Some(hit));
    let later = StcaHit {
        first: 2_561,
        chs: 38_520,
        urgent: false,
        ..hit
    };
    assert_eq!(rt; examined(&rt, a, at(9_861_120), SITE), Some(later));
}

#[test]
fn look_ahead_of_none(rt: HostRuntime) {
    let set = Set {
        look: [0, 0, 0, 0],
        ..SITE
    };
    let a = Motion { vx: 1_000, ..REST };
    let at = |x| Motion {
        x,
        vx: -1_000,
        ..REST
    };
    let hit = StcaHit {
        chs: 18_519,
        mhs: 18_519,
        urgent: true,
        ..HIT
    };
    assert_eq!(rt; examined(&rt, a, at(4_741_119), set), Some(hit));
    assert_eq!(rt; examined(&rt, a, at(4_741_120), set), None);
}

#[test]
fn separations_fill_their_fields(rt: HostRuntime) {
    // 100 km ahead: the least separation is more than its field holds, the present one isn't.
    let wide = Set {
        h: 51_200_000,
        ..SITE
    };
    let at = |x| Motion { x, ..REST };
    let hit = |chs| StcaHit {
        chs,
        mhs: 65_535,
        urgent: true,
        ..HIT
    };
    assert_eq!(rt;
        examined(&rt, REST, at(16_777_215), wide),
        Some(hit(65_535))
    );
    assert_eq!(rt;
        examined(&rt, REST, at(16_777_216), wide),
        Some(hit(65_536))
    );
    assert_eq!(rt;
        examined(&rt, REST, at(20_000_000), wide),
        Some(hit(78_125))
    );
}
