//! Counts, and what the lists of a source, a sink and a world in memory say of a call.
ghost use Rattle.std.specs.Prelude.{◌≡◌, ◌≤◌};
ghost use Rattle.outside_io.specs.Calls.{counted, is_listed, at_most, at_least_one};

/// One more, as far as the count goes.
pub(crate) fn next_count(count: u64) -> u64
    ensures { result ≡ counted count }
{
    count.saturating_add(1)
}

/// Whether the call is one of those listed.
pub(crate) fn lists(numbers: &[u64], call: u64) -> bool
    ensures { result ≡ is_listed numbers.now call }
{
    numbers.contains(&call)
}

/// How many of so many bytes the call takes.
pub(crate) fn bounded(bounds: &[u32], call: u64, bytes: usize) -> usize
    ensures value { result ≡ at_most bounds.now call bytes }
    ensures bound { result ≤ bytes }
{
    match bounds.get(call as usize) {
        Some(bound) => (*bound as usize).min(bytes),
        None => bytes,
    }
}

/// How many of so many bytes the call gives.
pub(crate) fn bounded_from_one(bounds: &[u32], call: u64, bytes: usize) -> usize
    ensures value { result ≡ at_least_one bounds.now call bytes }
    ensures bound { result ≤ bytes }
    ensures some { result ≡ 0 → bytes ≡ 0 }
{
    bounded(bounds, call, bytes).max(bytes.min(1))
}
