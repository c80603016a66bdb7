//! Tests of gateways that are set up at a site in memory, by the program's `run` and by the call below it, and of runs of `replay` and `drill`.
#![tactic(auto)]

#[cfg(test)]
mod input_runs;
#[cfg(test)]
mod input_tests;
#[cfg(test)]
mod set_up_tests;
#[cfg(test)]
mod set_ups;
