//! What a report tells.
ghost use Rattle.std.specs.Prelude.{◌≡◌, IfOk, take};

use asterix_blocks::End;
use cat062_read::Refused;
use std::alloc::{AllocError, Global};
use std::marker::Model;

/// The most refusals of a feed that a report prints.
pub const MOST_REFUSALS: u32 = 100;

/// The refusals that are printed.
pub fn printed(refusals: &[Refused]) -> &[Refused]
    ensures { result.now ≡ take MOST_REFUSALS refusals.entry.now }
{
    &refusals[..refusals.len().min(MOST_REFUSALS as usize)]
}

/// Refusals of a feed, in order.
#[derive(Debug, Drop)]
pub struct Refusals {
    refusals: Vec<Refused>,
}

impl Model for Refusals {
    ghost use Rattle.std.specs.Prelude.{List};
    ghost use Rattle.cat062_read.specs.declared.body.Refused.{Refused};

    ghost Value = { List Refused };

    ghost view = { λ list. list.refusals.items };
}

impl Refusals {
    /// Those of the refusals that a report prints.
    pub fn printed_of(alloc: Global, refusals: &[Refused]) -> Result<Refusals, AllocError>
        ensures { IfOk result (λ list. list ≡ take MOST_REFUSALS refusals.now) }
    {
        let mut first = Vec::new(alloc);
        first.extend_from_slice(printed(refusals))?;
        Ok(Refusals { refusals: first })
    }

    /// The refusals, to read them.
    pub fn as_slice(&self) -> &[Refused]
        ensures { result.now ≡ self.now }
    {
        self.refusals.as_slice()
    }
}

/// What was read of a feed: its blocks of category 062 and the others, its records, those that tell of a
/// track, the first of its refusals and how many there are, and how it ends.
#[derive(Debug, Drop)]
pub struct FeedCount {
    pub blocks: u64,
    pub passed: u64,
    pub records: u64,
    pub tracks: u64,
    pub refused: Refusals,
    pub refusals: u64,
    pub end: End,
}

/// What was read of each feed, in order.
#[derive(Debug, Drop)]
pub struct FeedCounts {
    feeds: Vec<FeedCount>,
}

impl Model for FeedCounts {
    ghost use Rattle.std.specs.Prelude.{List};
    ghost use Rattle.feed_reader.specs.declared.counts.FeedCount.{FeedCount};

    ghost Value = { List FeedCount };

    ghost view = { λ list. list.feeds.items };
}

impl FeedCounts {
    /// These feeds as a list.
    pub fn new(feeds: Vec<FeedCount>) -> FeedCounts
        ensures { result ≡ feeds.items }
    {
        FeedCounts { feeds }
    }

    /// The feeds, to read them.
    pub fn as_slice(&self) -> &[FeedCount]
        ensures { result.now ≡ self.now }
    {
        self.feeds.as_slice()
    }
}

/// What a run tells at its end: how many cycles it made, what was read of each feed, how many subjects
/// began to alert, and how many messages went out.
#[derive(Debug, Drop)]
pub struct Report {
    pub cycles: u64,
    pub feeds: FeedCounts,
    pub firsts: u64,
    pub messages: u64,
}
