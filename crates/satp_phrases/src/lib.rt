//! The words in which a refusal is told, to a peer or to an operator.
#![tactic(auto)]

mod phrase;
mod refusal;
mod role;

pub use phrase::{Detail, Phrase, append_number, append_session, numbered, plain};
pub use refusal::{canon_phrase, jws_phrase, refusal_phrase};
pub use role::role_text;
