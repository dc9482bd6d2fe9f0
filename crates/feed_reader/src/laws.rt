//! The numbers of reading and of reports, as numerals.
ghost use Rattle.std.specs.Prelude.{◌≡◌};
ghost use Rattle.feed_reader.specs.declared.counts.TheConstants.{MOST_REFUSALS};
ghost use Rattle.feed_reader.specs.declared.input.TheConstants.{MOST_USABLE};

/// A report prints 100 refusals of a feed, and a feed has 2^39 usable records at most.
pub fn numbers()
    ensures refusals { MOST_REFUSALS ≡ 100 }
    ensures usable { MOST_USABLE ≡ 549755813888 }
{}
