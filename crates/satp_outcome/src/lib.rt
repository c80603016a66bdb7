//! How a command ends: its exit status, its line on standard error, and what it read and printed until then.
//!
//! Definitions of all that is outside of the program stand here too, as the contracts of commands speak of it.
#![tactic(auto)]

mod line;
mod outcome;
mod reply;
mod reporting;
mod saying;
mod streams;

pub use outcome::{InputEnd, Outcome, PeerEnd, PlaceEnd};
pub use reply::Reply;
pub use reporting::report;
pub use saying::{say, say_both, say_numbered, say_phrase, say_session, say_three};
pub use streams::{LONGEST_INPUT, conclude, read_to, text_on};
