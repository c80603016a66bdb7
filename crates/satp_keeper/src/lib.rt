//! A ledger that is kept in a journal on a disk.
#![tactic(auto)]

mod fault;
mod founding;
mod keep;
mod kept;
mod laws;
mod replay;
mod tally;

pub use fault::KeeperFault;
pub use kept::{Kept, Unopened};
pub use laws::law_kept;
