//! Tests of drives, over a site and a wire in memory.
#![tactic(auto)]

#[cfg(test)]
mod alpha;
#[cfg(test)]
mod drive_tests;
#[cfg(test)]
mod rows;
