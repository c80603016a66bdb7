//! A gateway's records and the site that it is at: what is stored, what is asked of the ledger, and what is replied.
#![tactic(auto)]

mod carry;
mod prepare;
mod records;
mod register;
mod reply;
mod start;
mod work;

pub use register::Register;
