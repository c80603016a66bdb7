//! A journal of payloads in one area of a disk, which survives a stop in any write.
//!
//! Its bytes are records one after the other, and then a closed gate.
//! A record is a gate, two bytes of length (big-endian, 1 to 4096) and as many bytes of payload.
//! A gate is one byte: 1 is open, and every other value is closed. Bytes behind a closed gate are passed over.
#![tactic(auto)]

mod fault;
mod journal;
mod list;
mod open;
mod scan;
mod stock;
mod store;

pub use fault::{JournalFault, Unread};
pub use journal::Journal;
pub use list::payloads;
