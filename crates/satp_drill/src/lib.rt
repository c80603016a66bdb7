//! Drills: two gateways over sites in memory carry out a schedule, with its stops, failing calls, losses and repeats.
#![tactic(auto)]

mod command;
mod count;
mod course;
mod exchange;
mod founding;
mod named;
mod names;
mod pending;
mod place;
mod report;
mod sides;

pub use course::{Drilled, drill};
pub use report::Report;
