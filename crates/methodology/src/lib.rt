// The minutes of document 001's examples, and their weighted sum: what `methodology_test` prints its rows from.
#![tactic(auto)]

pub mod sample;
pub mod weighted;
