//! The payloads of a journal: which bytes stand for which record, and no others.
#![tactic(auto)]

mod code;
mod fault;
mod field;
mod laws;
mod reading;
mod stored;
mod writing;

pub use fault::RecordFault;
pub use laws::law_payloads;
pub use reading::{decode, rec_of};
pub use stored::{Setup, Stored};
pub use writing::encode;
