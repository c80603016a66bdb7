//! Drives: a gateway works on one session over one connection that it opens to its peer. It posts a text, handles the answer and
//! posts what it replies, until nothing is left to post.
#![tactic(auto)]

mod drive;
mod driven;
mod laws;
mod talk;
mod turn;

pub use drive::{drive_recover, drive_resume, drive_start};
pub use driven::{DriveEnd, Driven};
pub use laws::{law_driven, law_drives};
pub use turn::Turn;
