//! Tests of drills.
#![tactic(auto)]

#[cfg(test)]
mod drill_tests;
