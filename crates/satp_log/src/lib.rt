//! Reading and folding, over no device: how a gateway hears a signed text, which records its journal may have, and what they say of each session.
#![tactic(auto)]

mod fault;
mod hearing;
mod held;
mod journal;
mod laws;
mod state;

pub use fault::{LogFault, Misfit, Unheard};
pub use hearing::hear;
pub use journal::Log;
pub use laws::{law_journals, law_states};
pub use state::SessionState;
