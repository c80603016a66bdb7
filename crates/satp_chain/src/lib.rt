//! The chain of a session's messages: what it holds, what it says of a text, and the next text.
#![tactic(auto)]

mod chain;
mod laws;
mod signed;

pub use chain::Chain;
pub use laws::{law_chains, law_next};
pub use satp_base::Verdict;
pub use signed::Signed;
