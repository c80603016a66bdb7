//! Tests of connections that are served, over a script and a wire in memory.
#![tactic(auto)]

#[cfg(test)]
mod rows;
#[cfg(test)]
mod script;
#[cfg(test)]
mod serve_tests;
