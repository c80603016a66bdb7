//! A gateway at a site: what it keeps, what its calls come to, and what each of their answers says.
#![tactic(auto)]

mod decision;
mod fault;

pub use decision::{Decision, First, Replying};
pub use fault::Refused;
