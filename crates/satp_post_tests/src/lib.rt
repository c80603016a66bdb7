//! Tests of texts that are posted, over a wire in memory.
#![tactic(auto)]

#[cfg(test)]
mod post_tests;
#[cfg(test)]
mod rows;
