//! Commands at a gateway's directory that need no peer, and the opening of a gateway there, with which every such command begins.
#![tactic(auto)]

mod abort_command;
mod opening;
mod show_command;
mod show_lines;

pub use abort_command::abort;
pub use opening::open_at;
pub use show_command::show;
