//! Tests of the site file's fields and of the site file, by their public calls.
#![tactic(auto)]

#[cfg(test)]
mod tests;
