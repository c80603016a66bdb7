//! The real devices: files in a directory as a disk, streams of the system as a source and sinks, and TCP as a wire.
//!
//! They tell nothing of what they hold, and count their faults. What the files and sockets of a system do can't be proved: this is the edge that is trusted.
#![tactic(auto)]

mod area_file;
mod connection;
mod disk;
mod faults;
mod folder;
mod streams;
mod wire;

pub use connection::Patience;
pub use disk::FileDisk;
pub use faults::counted;
pub use streams::{Input, Output};
pub use wire::TcpWire;
