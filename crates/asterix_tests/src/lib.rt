//! Tests of what reads and writes ASTERIX, over the public calls.
#![tactic(auto)]

#[cfg(test)]
mod tests;
