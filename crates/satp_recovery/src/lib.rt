//! What the two sides of a recovery round tell one another about their chains, and which messages that makes them exchange.
//!
//! The starter says how long its chain is and names its last link; the other side answers with its own
//! length and with the messages that the starter lacks. Two chains of one session never differ by more
//! than one message, so a round needs one message at most to make them equal.
#![tactic(auto)]

mod choice;
mod laws;

pub use choice::{RecoveryFault, Step, agree, answer, take};
pub use laws::law_rounds;
