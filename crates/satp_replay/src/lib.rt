//! The bytes of a gateway's journal, read without a site: which sessions they have, and how each stands.
#![tactic(auto)]

mod fault;
mod journal;
mod lines;

pub use fault::ReplayFault;
pub use journal::replay;
