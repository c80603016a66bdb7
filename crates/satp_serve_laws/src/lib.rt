//! What a served connection asks of its gateway.
//!
//! The laws of this crate stand over definitions alone. They make no call: what each says is its contract.
#![tactic(auto)]

ghost use Rattle.satp_serve_laws.specs.Asks.{ConnectionsAsk};

/// A connection asks its gateway to handle the bodies of the requests that were heard, as many as were handed over and in their order, and nothing else. So its gateway
/// is one side of a run of two gateways, as long as each body is a text that a network can hand over, or no message's.
pub fn law_connections_ask()
    ensures { ConnectionsAsk }
{}
