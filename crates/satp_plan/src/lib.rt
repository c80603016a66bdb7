//! Every record that may come due in a session, made in advance, so that no memory is wanted once a call has begun to store.
#![tactic(auto)]

mod finding;
mod laws;
mod outline;
mod planning;
mod roles;

pub use laws::law_planned;
pub use planning::{Making, Note, Plan};
pub use roles::{made_part, next};
