//! Tests of the program, over its public calls.
#![tactic(auto)]

#[cfg(test)]
mod tests;
