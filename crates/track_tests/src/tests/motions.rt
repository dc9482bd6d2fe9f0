//! Ranks and motions, each answer worked out by hand.
use track_motion::{Motion, Stamped, Track, TrackKey, motion_at, rank_less};

/// The time of cycle 0: 36,004 s.
const CYCLE_TIME: i64 = 4_608_512;

/// At the middle of the plane, eastbound at 250 m/s at flight level 330.
const EASTBOUND: Track = Track {
    key: TrackKey {
        sac: 25,
        sic: 10,
        number: 0x0101,
    },
    time: 4_608_256,
    x: 0,
    y: 0,
    vx: 1000,
    vy: 0,
    level: Some(1320),
    altitude: Some(1320),
    rate: 0,
    code: None,
    tentative: false,
    simulated: false,
    ended: false,
};

/// Told at 36,002 s.
const FIRST: Stamped = Stamped {
    track: EASTBOUND,
    feed: 0,
    place: 0,
    at: 4_608_256,
    window: 0,
};

const AT_REST: Motion = Motion {
    x: 0,
    y: 0,
    vx: 0,
    vy: 0,
    z: 0,
    alt: 0,
    vz: 0,
};

#[test]
fn two_tracks_head_on(rt: HostRuntime) {
    let east = Motion {
        x: 256_000,
        vx: 1000,
        z: 40_550_400,
        alt: 40_550_400,
        ..AT_REST
    };
    let west = Motion {
        x: 2_304_000,
        vx: -1000,
        z: 40_796_160,
        alt: 40_796_160,
        ..AT_REST
    };
    // Five kilometres east of it, 200 ft higher.
    let westbound = Stamped {
        track: Track {
            x: 10_000,
            vx: -1000,
            level: Some(1328),
            altitude: Some(1328),
            ..EASTBOUND
        },
        ..FIRST
    };
    assert_eq!(rt; motion_at(&FIRST, CYCLE_TIME), Some(east));
    assert_eq!(rt; motion_at(&westbound, CYCLE_TIME), Some(west));
}

/// 60 s after it was told: south-bound, climbing, the altitude 2,500 ft above the level.
#[test]
fn a_climb_for_the_longest_age(rt: HostRuntime) {
    let climbing = Stamped {
        track: Track {
            y: -2000,
            vx: 0,
            vy: -4,
            level: Some(-40),
            altitude: Some(60),
            rate: 240,
            ..EASTBOUND
        },
        ..FIRST
    };
    let moved = Motion {
        y: -542_720,
        vy: -4,
        z: 614_400,
        alt: 3_686_400,
        vz: 240,
        ..AT_REST
    };
    assert_eq!(rt; motion_at(&climbing, 4_615_936), Some(moved));
}

#[test]
fn no_motion_without_a_level(rt: HostRuntime) {
    let low = Stamped {
        track: Track {
            level: None,
            altitude: None,
            ..EASTBOUND
        },
        ..FIRST
    };
    assert_eq!(rt; motion_at(&low, CYCLE_TIME), None);
}

#[test]
fn ends_of_the_range(rt: HostRuntime) {
    let rows = [
        (AT_REST, true),
        (
            Motion {
                x: 4_294_967_296,
                ..AT_REST
            },
            true,
        ),
        (
            Motion {
                x: 4_294_967_297,
                ..AT_REST
            },
            false,
        ),
        (
            Motion {
                alt: -4_294_967_296,
                ..AT_REST
            },
            true,
        ),
        (
            Motion {
                alt: -4_294_967_297,
                ..AT_REST
            },
            false,
        ),
        (
            Motion {
                vz: 32_768,
                ..AT_REST
            },
            true,
        ),
        (
            Motion {
                vz: -32_769,
                ..AT_REST
            },
            false,
        ),
    ];
    for (motion, want) in rows {
        assert_eq!(rt; motion.in_range(), want, "of {motion:?}");
    }
}

/// A record of the same track, told by a feed at a place and a time.
fn told(at: i64, feed: u32, place: u64) -> Stamped {
    Stamped {
        feed,
        place,
        at,
        ..FIRST
    }
}

#[test]
fn the_later_record_outranks(rt: HostRuntime) {
    let rows = [
        (told(4, 0, 0), told(5, 0, 0), true),
        (told(5, 0, 0), told(4, 0, 0), false),
        (told(4, 1, 9), told(5, 7, 0), true),
        (told(-5, 1, 0), told(-4, 1, 0), true),
        // At equal times the lower feed, whatever the places.
        (told(5, 1, 9), told(5, 0, 0), true),
        (told(5, 0, 0), told(5, 1, 9), false),
        // In one feed at one time the later place.
        (told(5, 2, 3), told(5, 2, 4), true),
        (told(5, 2, 4), told(5, 2, 3), false),
        (told(5, 2, 3), told(5, 2, 3), false),
    ];
    for (a, b, want) in rows {
        assert_eq!(rt; rank_less(&a, &b), want, "{a:?} below {b:?}");
    }
}
