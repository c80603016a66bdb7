//! The program as one function: the words of a command line and the devices in, an exit status out.
//!
//! Whatever a command does is said by the contract of [`run`]; a program above it only makes the
//! devices and ends with the status.
#![tactic(auto)]

mod answer_command;
mod arguments;
mod check_command;
mod init_command;
mod laws;
mod replay_command;
mod top;

pub use arguments::run_arguments;
pub use laws::law_one_end;
pub use top::run;
