//! Schedules of a drill: what two gateways do, and what goes wrong meanwhile, read from a text or made from a number.
#![tactic(auto)]

mod fields;
mod generator;
mod line;
mod parse;
mod schedule;
mod values;
mod verb;

pub use generator::generate;
pub use line::{Line, Side};
pub use schedule::{Schedule, ScheduleFault};
