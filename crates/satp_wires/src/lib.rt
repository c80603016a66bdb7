//! What both ends of a connection do with a wire.
#![tactic(auto)]

mod say;

pub use say::say_all;
