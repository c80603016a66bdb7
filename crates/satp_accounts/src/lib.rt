//! The ledger that keeps what each owner is free to use.
#![tactic(auto)]

mod accounts;
mod begin;

pub use accounts::Accounts;
