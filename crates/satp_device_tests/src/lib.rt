//! Tests of devices in memory: disks, streams and wires, a journal on a disk, and a site with accounts as its ledger.
//!
//! A function that owns a device has one way out, and what is looked at are plain values: else the proofs of the tests take minutes.
#![tactic(auto)]

#[cfg(test)]
mod disk_tests;
#[cfg(test)]
mod long_tests;
#[cfg(test)]
mod opening_tests;
#[cfg(test)]
mod site_tests;
#[cfg(test)]
mod stop_tests;
#[cfg(test)]
mod stream_tests;
#[cfg(test)]
mod wire_tests;
