//! What each call of a gateway comes to, by its tests in their order: a refusal, or a decision that is still to be carried out. The tests look at the records alone, and no site is called.
#![tactic(auto)]

mod addressed;
mod hearing;
mod on_chain;
mod own;
mod recovering;

pub use hearing::message;
pub use own::{abort, rescue, start, work};
