//! A gateway before its journal and its ledger at one site.
#![tactic(auto)]

mod fault;
mod gateway;
mod handle;
mod opening;
mod payload;
mod set_up;
mod vacancy;

pub use fault::{OpenFault, SetUpFault};
pub use gateway::Gateway;
pub use handle::Reply;
pub use satp_log::{Log, LogFault};
pub use satp_points::Refused;
pub use vacancy::Vacancy;
