//! The content of a feed.
ghost use Rattle.std.specs.Prelude.{◌≡◌, IfOk, count_by};
ghost use Rattle.asterix_blocks.specs.declared.blocks.End.{End};
ghost use Rattle.cat062_read.specs.Tracks.{is_usable as usable};
ghost use Rattle.feed_reader.specs.Content.{is_intact as intact};
ghost use Rattle.feed_reader.specs.Counts.{feed_count};
ghost use Rattle.feed_reader.specs.Feeds.{content_as};

use crate::counts::{FeedCount, Refusals};
use crate::input::Gathered;
use asterix_blocks::End;
use cat062_read::Raw062;
use std::alloc::{AllocError, Global};
use std::marker::Model;

/// The content of a feed: how many blocks it has of category 062 and of others, its records, what is refused
/// of it with its place, and how it ends.
#[derive(Debug, Drop)]
pub struct Input {
    gathered: Gathered,
    end: End,
}

impl Model for Input {
    ghost use Rattle.std.specs.Prelude.{◌≡◌, count_by};
    ghost use Rattle.cat062_read.specs.Tracks.{is_usable};
    ghost use Rattle.feed_reader.specs.Content.{Content};
    ghost use Rattle.feed_reader.specs.Feeds.{content_as};

    ghost Value = { Content };

    ghost view = { λ i. content_as i.gathered i.end };

    ghost invariant = { λ i. i.gathered.usable ≡ count_by is_usable i.gathered.records.items };
}

impl Input {
    /// What was gathered of a feed that ends so.
    pub fn new(gathered: Gathered, end: End) -> Input
        requires { gathered.usable ≡ count_by usable gathered.records.items }
        ensures { result ≡ content_as gathered end }
    {
        Input { gathered, end }
    }

    /// The records, in order.
    pub fn records(&self) -> &[Raw062]
        ensures { result.now ≡ self.now.records }
    {
        self.gathered.records.as_slice()
    }

    /// Whether nothing of the feed is refused and it ends behind a whole block.
    pub fn is_intact(&self) -> bool
        ensures { result ≡ intact self.now.refused self.now.end }
    {
        self.gathered.refused.is_empty() && matches!(self.end, End::Clean)
    }

    /// What a report says of the feed.
    pub fn count(&self, alloc: Global) -> Result<FeedCount, AllocError>
        ensures { IfOk result (λ count. count ≡ feed_count self.now) }
    {
        let Gathered {
            blocks,
            passed,
            records,
            usable,
            refused,
        } = &self.gathered;
        Ok(FeedCount {
            blocks: *blocks,
            passed: *passed,
            records: records.len() as u64,
            tracks: *usable,
            refused: Refusals::printed_of(alloc, refused.as_slice())?,
            refusals: refused.len() as u64,
            end: self.end,
        })
    }
}
