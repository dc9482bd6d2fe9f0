//! Alerts over cycles, each answer worked out by hand.
ghost use Rattle.std.specs.Prelude.{◌≤◌};

use alert_states::{Book, Event, Hit, HitData, Net, NoMemory, Status, Subject, URGENT};
use site_types::Confirm;
use std::alloc::Global;
use std::process::Abort;
use std::test::Fail;
use track_motion::TrackKey;

const EASTBOUND: TrackKey = TrackKey {
    sac: 25,
    sic: 10,
    number: 0x0101,
};

const WESTBOUND: TrackKey = TrackKey {
    sac: 25,
    sic: 10,
    number: 0x0102,
};

const NO_KEY: TrackKey = TrackKey {
    sac: 0,
    sic: 0,
    number: 0,
};

const PAIR: Subject = Subject {
    net: Net::Stca,
    key: EASTBOUND,
    other: WESTBOUND,
    object: 0,
};

const LOW: Subject = Subject {
    net: Net::Msaw,
    key: EASTBOUND,
    other: NO_KEY,
    object: 0,
};

const FIGURES: HitData = HitData {
    first: 256,
    closest: 512,
    chs: 9_000,
    mhs: 2_000,
    cvs: 30,
    mvs: 10,
    flags: 0,
};

/// Hits that aren't urgent.
const PAIR_HIT: Hit = Hit {
    subject: PAIR,
    urgent: false,
    figures: FIGURES,
};

const LOW_HIT: Hit = Hit {
    subject: LOW,
    ..PAIR_HIT
};

/// One that is.
const URGENT_HIT: Hit = Hit {
    subject: PAIR,
    urgent: true,
    figures: HitData {
        flags: URGENT,
        ..FIGURES
    },
};

/// A hit that isn't urgent.
fn hit(subject: Subject) -> Hit {
    Hit {
        subject,
        urgent: false,
        figures: FIGURES,
    }
}

/// An event with the figures of a hit that isn't urgent.
fn seen(subject: Subject, status: Status, id: u16) -> Event {
    Event {
        subject,
        status,
        id,
        hit: Some(FIGURES),
    }
}

/// An event without a hit.
fn unseen(subject: Subject, status: Status, id: u16) -> Event {
    Event {
        subject,
        status,
        id,
        hit: None,
    }
}

/// A book whose nets all have this setting.
fn book_of(alloc: Global, m: u32, n: u32, hold: u32) -> Book
    requires some { 1 ≤ m }
    requires m { m ≤ n }
    requires n { n ≤ 16 }
    requires hold { hold ≤ 15 }
{
    let confirm = Confirm { m, n, hold };
    Book::new(alloc, [confirm, confirm, confirm, confirm])
}

/// What a cycle hits, and what it tells.
#[derive(Clone, Copy, Debug)]
struct Row {
    hit: Option<Hit>,
    told: Option<Event>,
}

/// The subject is hit, and its alert is off.
fn unconfirmed(subject: Subject) -> Row {
    Row {
        hit: Some(hit(subject)),
        told: None,
    }
}

/// The subject is hit, and its alert stands so.
fn with_hit(subject: Subject, status: Status, id: u16) -> Row {
    Row {
        hit: Some(hit(subject)),
        told: Some(seen(subject, status, id)),
    }
}

/// No subject is hit, and the alert of this one stands so.
fn without_hit(subject: Subject, status: Status, id: u16) -> Row {
    Row {
        hit: None,
        told: Some(unseen(subject, status, id)),
    }
}

/// No subject is hit, and no alert is on.
const NOTHING: Row = Row {
    hit: None,
    told: None,
};

/// A cycle with one hit or none.
fn cycle_of(book: &mut Book, hit: Option<Hit>, out: &mut Vec<Event>) -> Result<u64, NoMemory> {
    match hit {
        None => book.cycle(&[], out),
        Some(hit) => book.cycle(&[hit], out),
    }
}

/// Each cycle tells at most one event, and counts it where an alert begins.
fn expect_rows(
    rt: &impl Abort,
    alloc: Global,
    book: &mut Book,
    rows: &[Row],
) -> Result<(), NoMemory> {
    for row in rows {
        let mut out = Vec::new(alloc);
        let begun = cycle_of(book, row.hit, &mut out)?;
        assert_eq!(rt; out.as_slice().first().copied(), row.told);
        assert!(rt; out.len() <= 1);
        let first = row.told.is_some_and(|e| e.status == Status::First);
        assert_eq!(rt; begun, u64::from(first));
    }
    Ok(())
}

/// A cycle that hits both subjects tells these events.
fn expect_two(
    rt: &impl Abort,
    alloc: Global,
    book: &mut Book,
    told: [Event; 2],
) -> Result<(), NoMemory> {
    let mut out = Vec::new(alloc);
    let _begun = book.cycle(&[PAIR_HIT, LOW_HIT], &mut out)?;
    assert_eq!(rt; out.as_slice(), told.as_slice());
    Ok(())
}

/// A cycle with this hit, or with none, tells these events.
fn expect_both(
    rt: &impl Abort,
    alloc: Global,
    book: &mut Book,
    hit: Option<Hit>,
    told: [Event; 2],
) -> Result<(), NoMemory> {
    let mut out = Vec::new(alloc);
    let _begun = cycle_of(book, hit, &mut out)?;
    assert_eq!(rt; out.as_slice(), told.as_slice());
    Ok(())
}

/// Three hits in five cycles begin an alert, and it is held for two cycles after the last.
#[test]
fn three_hits_in_five(rt: HostRuntime) -> Result<(), Fail> {
    let mut book = book_of(rt.alloc(), 3, 5, 2);
    assert!(rt; book.quiet());
    let rows = [
        unconfirmed(PAIR),
        NOTHING,
        unconfirmed(PAIR),
        NOTHING,
        with_hit(PAIR, Status::First, 0),
        without_hit(PAIR, Status::Continuing, 0),
        without_hit(PAIR, Status::Continuing, 0),
        without_hit(PAIR, Status::Ended, 0),
        NOTHING,
    ];
    expect_rows(&rt, rt.alloc(), &mut book, &rows)?;
    assert!(rt; !book.quiet());
    assert_eq!(rt; book.live(), 1);
    expect_rows(&rt, rt.alloc(), &mut book, &[NOTHING])?;
    assert!(rt; book.quiet());
    assert_eq!(rt; book.live(), 0);
    Ok(())
}

/// The third hit is in the sixth cycle, when the first is no longer counted.
#[test]
fn three_hits_in_six(rt: HostRuntime) -> Result<(), Fail> {
    let mut book = book_of(rt.alloc(), 3, 5, 2);
    let rows = [
        unconfirmed(PAIR),
        NOTHING,
        NOTHING,
        unconfirmed(PAIR),
        NOTHING,
        unconfirmed(PAIR),
        with_hit(PAIR, Status::First, 0),
    ];
    expect_rows(&rt, rt.alloc(), &mut book, &rows)?;
    Ok(())
}

/// An urgent hit begins an alert at once.
#[test]
fn one_urgent_hit(rt: HostRuntime) -> Result<(), Fail> {
    let mut book = book_of(rt.alloc(), 3, 5, 2);
    let rows = [
        Row {
            hit: Some(URGENT_HIT),
            told: Some(Event {
                hit: Some(URGENT_HIT.figures),
                ..seen(PAIR, Status::First, 0)
            }),
        },
        without_hit(PAIR, Status::Continuing, 0),
        without_hit(PAIR, Status::Continuing, 0),
        without_hit(PAIR, Status::Ended, 0),
    ];
    expect_rows(&rt, rt.alloc(), &mut book, &rows)?;
    Ok(())
}

/// The hold is counted from the last hit, also from one that alone would begin no alert.
#[test]
fn a_hit_while_held(rt: HostRuntime) -> Result<(), Fail> {
    let mut book = book_of(rt.alloc(), 2, 2, 2);
    let rows = [
        unconfirmed(PAIR),
        with_hit(PAIR, Status::First, 0),
        without_hit(PAIR, Status::Continuing, 0),
        with_hit(PAIR, Status::Continuing, 0),
        without_hit(PAIR, Status::Continuing, 0),
        without_hit(PAIR, Status::Continuing, 0),
        without_hit(PAIR, Status::Ended, 0),
    ];
    expect_rows(&rt, rt.alloc(), &mut book, &rows)?;
    Ok(())
}

/// Without a hold an alert ends with the first cycle that has no hit.
#[test]
fn no_hold(rt: HostRuntime) -> Result<(), Fail> {
    let mut book = book_of(rt.alloc(), 1, 1, 0);
    let rows = [
        with_hit(LOW, Status::First, 0),
        with_hit(LOW, Status::Continuing, 0),
        without_hit(LOW, Status::Ended, 0),
    ];
    expect_rows(&rt, rt.alloc(), &mut book, &rows)?;
    assert!(rt; book.quiet());
    Ok(())
}

/// An alert is held for one cycle.
#[test]
fn hold_of_one(rt: HostRuntime) -> Result<(), Fail> {
    let mut book = book_of(rt.alloc(), 1, 1, 1);
    let rows = [
        with_hit(LOW, Status::First, 0),
        without_hit(LOW, Status::Continuing, 0),
        without_hit(LOW, Status::Ended, 0),
    ];
    expect_rows(&rt, rt.alloc(), &mut book, &rows)?;
    assert!(rt; book.quiet());
    Ok(())
}

/// With the greatest values an alert begins with the sixteenth hit, and is held for fifteen cycles.
#[test]
fn greatest_values(rt: HostRuntime) -> Result<(), Fail> {
    let mut book = book_of(rt.alloc(), 16, 16, 15);
    expect_rows(&rt, rt.alloc(), &mut book, &[unconfirmed(PAIR); 15])?;
    expect_rows(
        &rt,
        rt.alloc(),
        &mut book,
        &[with_hit(PAIR, Status::First, 0)],
    )?;
    let held = without_hit(PAIR, Status::Continuing, 0);
    expect_rows(&rt, rt.alloc(), &mut book, &[held; 15])?;
    assert!(rt; !book.quiet());
    expect_rows(
        &rt,
        rt.alloc(),
        &mut book,
        &[without_hit(PAIR, Status::Ended, 0)],
    )?;
    assert!(rt; book.quiet());
    Ok(())
}

/// A hit in every second cycle keeps an alert on: here for a day of cycles of four seconds.
#[test]
fn every_second_cycle(rt: HostRuntime) -> Result<(), Fail> {
    let mut book = book_of(rt.alloc(), 2, 3, 1);
    let first = [unconfirmed(PAIR), NOTHING, with_hit(PAIR, Status::First, 0)];
    expect_rows(&rt, rt.alloc(), &mut book, &first)?;
    let rows = [
        without_hit(PAIR, Status::Continuing, 0),
        with_hit(PAIR, Status::Continuing, 0),
    ];
    for _ in 0..10_800 {
        expect_rows(&rt, rt.alloc(), &mut book, &rows)?;
    }
    Ok(())
}

/// Events stand in the order of subjects, and numbers in the order in which alerts began.
#[test]
fn two_nets(rt: HostRuntime) -> Result<(), Fail> {
    let mut book = book_of(rt.alloc(), 1, 1, 1);
    expect_rows(
        &rt,
        rt.alloc(),
        &mut book,
        &[with_hit(LOW, Status::First, 0)],
    )?;
    let told = [
        seen(PAIR, Status::First, 1),
        seen(LOW, Status::Continuing, 0),
    ];
    expect_two(&rt, rt.alloc(), &mut book, told)?;
    let told = [
        unseen(PAIR, Status::Continuing, 1),
        seen(LOW, Status::Continuing, 0),
    ];
    expect_both(&rt, rt.alloc(), &mut book, Some(LOW_HIT), told)?;
    let told = [
        unseen(PAIR, Status::Ended, 1),
        unseen(LOW, Status::Continuing, 0),
    ];
    expect_both(&rt, rt.alloc(), &mut book, None, told)?;
    assert_eq!(rt; book.live(), 1);
    Ok(())
}

/// Of two alerts that begin in one cycle the lesser subject's has the lesser number, and an alert that begins
/// again has a new one.
#[test]
fn a_new_number(rt: HostRuntime) -> Result<(), Fail> {
    let mut book = book_of(rt.alloc(), 1, 1, 0);
    let told = [seen(PAIR, Status::First, 0), seen(LOW, Status::First, 1)];
    expect_two(&rt, rt.alloc(), &mut book, told)?;
    let told = [
        unseen(PAIR, Status::Ended, 0),
        seen(LOW, Status::Continuing, 1),
    ];
    expect_both(&rt, rt.alloc(), &mut book, Some(LOW_HIT), told)?;
    let told = [
        seen(PAIR, Status::First, 2),
        seen(LOW, Status::Continuing, 1),
    ];
    expect_two(&rt, rt.alloc(), &mut book, told)?;
    Ok(())
}

/// After 65,536 alerts their numbers begin again.
#[test]
fn numbers_begin_again(rt: HostRuntime) -> Result<(), Fail> {
    let mut book = book_of(rt.alloc(), 1, 1, 0);
    for id in 0..=u16::MAX {
        let rows = [
            with_hit(PAIR, Status::First, id),
            without_hit(PAIR, Status::Ended, id),
        ];
        expect_rows(&rt, rt.alloc(), &mut book, &rows)?;
    }
    expect_rows(
        &rt,
        rt.alloc(),
        &mut book,
        &[with_hit(PAIR, Status::First, 0)],
    )?;
    Ok(())
}

/// Takes a cycle, once more where it was refused memory: book and events were then as before.
fn cycle_again(
    rt: &impl Abort,
    book: &mut Book,
    hit: Hit,
    out: &mut Vec<Event>,
) -> Result<u64, NoMemory> {
    let live = book.live();
    let told = out.len();
    if let Ok(begun) = cycle_of(book, Some(hit), out) {
        return Ok(begun);
    }
    assert_eq!(rt; book.live(), live);
    assert_eq!(rt; out.len(), told);
    cycle_of(book, Some(hit), out)
}

/// A cycle that is refused memory leaves book and events as they were: taken again, it answers as if it was
/// taken once.
#[test]
fn want_of_memory(rt: HostRuntime) -> Result<(), Fail> {
    let mut book = book_of(rt.alloc(), 1, 1, 15);
    let mut out = Vec::new(rt.alloc());
    for object in 0..16 {
        let subject = Subject { object, ..LOW };
        let told = out.len();
        let begun = cycle_again(&rt, &mut book, hit(subject), &mut out)?;
        assert_eq!(rt; begun, 1);
        assert_eq!(rt; book.live(), u64::from(object) + 1);
        assert_eq!(rt; out.len(), told + object as usize + 1);
        assert_eq!(rt;
            out.as_slice().last().copied(),
            Some(seen(subject, Status::First, object))
        );
    }
    Ok(())
}
