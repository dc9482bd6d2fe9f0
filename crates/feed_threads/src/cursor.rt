//! The stamps of a feed, one after the other.
ghost use Rattle.std.specs.Prelude.{◌≡◌, [], ◌∷◌, All, None, IfSome, drop, length, nat_eq};
ghost use Rattle.cat062_read.specs.Tracks.{IsPlaced, IsQnh};
ghost use Rattle.track_table.specs.Proper.{IsSeen};
ghost use Rattle.feed_threads.specs.Cursors.{first_due, first_of, tracks_from};
ghost use Rattle.feed_reader.specs.Feeds.{IsTellable};
ghost use Rattle.feed_threads.specs.Reference.{stamps_told};
ghost use Rattle.feed_threads.specs.Rows.{IsTimed};

use cat062_read::{Raw062, track_of};
use feed_reader::Input;
use site_types::Site;
use std::marker::Model;
use track_motion::{Stamped, Track};
use track_table::FeedClock;
use track_table::laws::{feeds_keep_to_time, stamps_one_by_one};

/// The track of the first usable record from a place on, and the place behind that record.
fn next_track(records: &[Raw062], from: usize, qnh: i32) -> Option<(Track, usize)>
    requires placed { All IsPlaced records.now }
    requires correction { IsQnh qnh }
    ensures found { IfSome result (λ found. tracks_from qnh records.now from ≡ found.0 ∷ tracks_from qnh records.now found.1) }
    ensures seen { IfSome result (λ found. IsSeen found.0) }
    ensures none { result ≡ None → tracks_from qnh records.now from ≡ [] }
{
    for at in from..records.len() {
        if let Some(track) = track_of(&records[at], qnh) {
            return Some((track, at + 1));
        }
    }
    None
}

/// The usable records of a feed from a place on, which it stamps one after the other.
#[derive(Drop)]
struct Stamper<'a> {
    records: &'a [Raw062],
    at: usize,
    clock: FeedClock,
    qnh: i32,
    feed: u32,
    place: u64,
}

impl<'a> Model for Stamper<'a> {
    ghost use Rattle.std.specs.Prelude.{List};
    ghost use Rattle.track_motion.specs.declared.rank.Stamped.{Stamped};
    ghost use Rattle.track_table.specs.Stamps.{stamps_from};
    ghost use Rattle.feed_threads.specs.Cursors.{CanStamp, tracks_from};

    ghost Value = { List Stamped };

    ghost view = { λ s. stamps_from s.clock s.feed s.place (tracks_from s.qnh s.records.now s.at) };

    ghost invariant = { λ s. CanStamp s.clock s.place s.qnh s.records.now s.at };
}

impl<'a> Stamper<'a> {
    /// The records of the feed of this number, from the first on.
    fn new(site: &Site, feed: u32, input: &'a Input) -> Stamper<'a>
        requires site { IsTimed site.now }
        requires tellable { IsTellable input.now }
        ensures { result ≡ stamps_told site.now feed input.now.records }
    {
        Stamper {
            records: input.records(),
            at: 0,
            clock: FeedClock::new(site.start, site.period),
            qnh: site.qnh,
            feed,
            place: 0,
        }
    }

    /// Stamps the next record.
    fn next(&mut self) -> Option<Stamped>
        ensures first { result ≡ first_of self.old }
        ensures left { self.new ≡ drop 1 self.old }
        ensures seen { IfSome result (λ s. IsSeen s.track) }
    {
        // The proof takes these laws; the calls do nothing.
        stamps_one_by_one();
        feeds_keep_to_time();
        let (track, at) = next_track(self.records, self.at, self.qnh)?;
        let stamp = self.clock.stamp(track, self.feed, self.place);
        self.at = at;
        self.place += 1;
        Some(stamp)
    }
}

/// The stamps of a feed that are still to be put into tables, in order. One record is stamped ahead.
#[derive(Drop)]
pub struct Cursor<'a> {
    next: Option<Stamped>,
    behind: Stamper<'a>,
}

impl<'a> Model for Cursor<'a> {
    ghost use Rattle.std.specs.Prelude.{List};
    ghost use Rattle.std.specs.List.{cons_option};
    ghost use Rattle.track_motion.specs.declared.rank.Stamped.{Stamped};
    ghost use Rattle.feed_threads.specs.Cursors.{IsAhead};

    ghost Value = { List Stamped };

    ghost view = { λ c. cons_option c.next c.behind };

    ghost invariant = { λ c. IsAhead c.next c.behind };
}

impl<'a> Cursor<'a> {
    /// All stamps of the feed of this number.
    pub fn new(site: &Site, feed: u32, input: &'a Input) -> Cursor<'a>
        requires site { IsTimed site.now }
        requires tellable { IsTellable input.now }
        ensures { result ≡ stamps_told site.now feed input.now.records }
    {
        let mut behind = Stamper::new(site, feed, input);
        let next = behind.next();
        Cursor { next, behind }
    }

    /// Whether no stamp is left.
    pub fn is_done(&self) -> bool
        ensures { result ≡ nat_eq (length self.now) 0 }
    {
        self.next.is_none()
    }

    /// The first of the stamps left, if it was told by the end of a cycle.
    pub fn next_due(&self, k: u64) -> Option<Stamped>
        ensures due { result ≡ first_due k self.now }
        ensures seen { IfSome result (λ s. IsSeen s.track) }
    {
        match self.next {
            Some(stamp) if stamp.window <= k => Some(stamp),
            _ => None,
        }
    }

    /// Drops the first of the stamps left, where there is one.
    pub fn advance(&mut self)
        ensures { self.new ≡ drop 1 self.old }
    {
        self.next = self.behind.next();
    }
}
