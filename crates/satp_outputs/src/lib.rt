//! The ledger that keeps unspent outputs.
#![tactic(auto)]

mod begin;
mod laws;
mod output;
mod outputs;
mod unspent;

pub use laws::law_numbers;
pub use output::Output;
pub use outputs::Outputs;
