//! A text is posted over an open connection, and its answer is heard.
#![tactic(auto)]

mod fault;
mod laws;
mod posting;

pub use fault::PostFault;
pub use laws::law_posts;
pub use posting::post;
