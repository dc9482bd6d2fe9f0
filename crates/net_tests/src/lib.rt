//! Tests of the four ground nets and of alerts, over their public calls.
#![tactic(auto)]

#[cfg(test)]
mod tests;
