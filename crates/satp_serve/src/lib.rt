//! A connection that is served: what is said to the requests that are heard, by anything that replies to their bodies.
#![tactic(auto)]

mod code;
mod connection;
mod fault;
mod gateway;
mod gateway_connection;
mod laws;
mod listening;
mod responder;
mod say;
mod served;
mod turn;

pub use code::refusal_code;
pub use connection::{Connection, ConnectionEnd, serve_connection_over};
pub use fault::{fault_code, fault_phrase};
pub use gateway_connection::serve_connection;
pub use laws::law_exchanges;
pub use responder::{Halt, Replied, Responder};
pub use served::Served;
pub use turn::{ServeFault, Turn};
