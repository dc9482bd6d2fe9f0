//! Tests of the crates of tracks, ticks, places, tables and the outside, by their public calls alone.
#![tactic(auto)]

#[cfg(test)]
mod tests;
