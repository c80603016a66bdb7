//! A wire whose peer is a gateway at its own site, which answers what is said at once. Messages can be lost on it, or come twice.
#![tactic(auto)]

mod answering;
mod laws;
mod line;
mod loop_wire;
mod mail;
mod peer;
mod seat;
mod troubles;

pub use laws::law_counts;
pub use loop_wire::LoopWire;
pub use mail::Mail;
pub use peer::Peer;
pub use seat::Seat;
pub use troubles::Troubles;
