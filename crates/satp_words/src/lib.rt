//! The words of a command line: which command they list, and with which values.
#![tactic(auto)]

mod arguments;
mod command;
mod command_values;
mod forms;
mod keys;
mod laws;
mod numbers;
mod options;
mod reader;
mod values;
mod verbs;

pub use arguments::words_of;
pub use command::{Command, WordsFault};
pub use laws::{law_examples, law_one_command};
pub use reader::read;
