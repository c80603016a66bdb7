//! What the ledgers in memory rest on: the table of operations in code, the entries of sessions, amounts that agree with the sums over a book, and laws of the rule.
#![tactic(auto)]

mod entries;
mod laws;
mod owned;
mod table;

pub use entries::{entry_in, pledged_in, standing_in};
pub use laws::{law_finished, law_moves, law_rule, law_totals};
pub use owned::Owned;
pub use table::{are_equal, is_giving, is_still, pledged_part, receiver, result_of};
