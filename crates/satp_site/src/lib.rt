//! The real site of a gateway: its files in a directory, and the ledger that is kept there.
#![tactic(auto)]

mod directory;
mod kept_ledger;
mod site;

pub use directory::Directory;
pub use site::RealSite;
