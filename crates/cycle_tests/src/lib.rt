//! Tests of the hits of a cycle and of whole cycles, over public calls.
#![tactic(auto)]

#[cfg(test)]
mod tests;
