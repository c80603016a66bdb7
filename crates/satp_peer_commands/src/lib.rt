//! Commands at a gateway's directory that speak with a peer over a wire.
#![tactic(auto)]

mod drive_commands;
mod drive_end;
mod serve_command;
mod serving;
mod tally;

pub use drive_commands::{recover, resume, start};
pub use serve_command::serve;
