//! Which of two records of a track tells it better.
ghost use Rattle.std.specs.Prelude.{◌≡◌};
ghost use Rattle.track_motion.specs.Ranks.{outranks};

use crate::track::Track;

/// A track as a feed told it, and when: what a table chooses among.
#[derive(Clone, Copy, Debug, PartialEq, Eq)]
pub struct Stamped {
    pub track: Track,
    /// The feed that told it, numbered from 0.
    pub feed: u32,
    /// Which of the feed's usable records it is, numbered from 0.
    pub place: u64,
    /// When it was told, in ticks of 1/128 s, going on over midnight.
    pub at: i64,
    /// The cycle in which the feed told it, numbered from 0.
    pub window: u64,
}

/// Whether b outranks a: it was told later, or at the same time by a lower feed, or at the same time
/// by the same feed at a later place.
pub fn rank_less(a: &Stamped, b: &Stamped) -> bool
    ensures { result ≡ outranks b.now a.now }
{
    let by_time = b.at.cmp(&a.at);
    let by_feed = a.feed.cmp(&b.feed);
    let by_place = b.place.cmp(&a.place);
    by_time.then(by_feed).then(by_place).is_gt()
}
