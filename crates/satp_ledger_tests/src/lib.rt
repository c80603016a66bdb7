//! Tests of ledgers: both kinds in memory, and accounts that are kept on a disk in memory.
//!
//! A function that owns a ledger or a disk has few ways out, and what is looked at are plain values: else the proofs of the tests take minutes.
#![tactic(auto)]

#[cfg(test)]
mod core_tests;
#[cfg(test)]
mod failing_tests;
#[cfg(test)]
mod fixture;
#[cfg(test)]
mod opening_tests;
#[cfg(test)]
mod outputs_tests;
#[cfg(test)]
mod stop_tests;
#[cfg(test)]
mod table_tests;
