//! What a gateway says in a recovery round: the texts of its messages that belong to no chain, from what it keeps.
#![tactic(auto)]

mod recovery;

pub use recovery::{nothing_known, recover, success, update};
