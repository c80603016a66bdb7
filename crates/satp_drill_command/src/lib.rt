//! The command `drill`: the schedule of a seed, or that on the input, is carried out, and what it comes to is printed.
#![tactic(auto)]

mod command;
mod line;

pub use command::drill;
