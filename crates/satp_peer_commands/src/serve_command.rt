// The command `serve`.
ghost use Rattle.std.specs.Prelude.{◌≡◌, false};
ghost use Rattle.satp_gateway_commands.specs.AtGateway.{AtGateway};
ghost use Rattle.satp_outcome.specs.Outside.{Says, SourceState, outside, sink, site_state, streams, wire_state};
ghost use Rattle.satp_peer_commands.specs.Serving.{Prints, ServeWorks, served_line, tally_text, unprinted};
ghost use Rattle.satp_points.specs.States.{GateWithin, is_broken};

use crate::serving::serve_all;
use crate::tally::Tally;
use satp_base::{Address, Sink, SinkFault, Site, Text, Wire};
use satp_gateway::Gateway;
use satp_gateway_commands::open_at;
use satp_outcome::{Outcome, PeerEnd, say, say_numbered};
use std::alloc::Global;

/// Serves the gateway in a directory: listens at an address, and serves so many connections in turn.
///
/// After the opening it listens once, and prints `listening`; each connection is accepted, and its requests are handed to the gateway; at last it prints how many connections and
/// requests there were, and how many connections a fault of the wire ended.
///
/// After the ends of the opening, in this order: `Peer` with `Wire` where it can't listen, or a connection isn't accepted; `Place` with `Site`, or `Memory`, as soon as a
/// connection ends so, and no further one is accepted then. A connection that a fault of the wire ends is none of these: serving goes on.
///
/// `OutputFailed` comes where the last line isn't printed. Where the first isn't, all is served the same, nothing further is printed, and `OutputFailed` comes in place of each
/// end after it but `Memory`.
pub fn serve<S: Site, W: Wire, K: Sink>(
    alloc: Global,
    dir: &Text,
    listen: &Address,
    connections: u32,
    site: &mut S,
    wire: &mut W,
    out: &mut K,
) -> Outcome
    requires failed { K.has_failed out.old ≡ false }
    requires closed { W.is_open wire.old ≡ false }
    ensures rule { (input : SourceState) → AtGateway dir.now (ServeWorks listen.now connections)
        (outside (streams input (sink K.faults K.taken K.has_failed out.old)) (site_state S.faults S.told S.book site.old) (wire_state W.faults W.told W.listens W.is_open wire.old))
        (outside (streams input (sink K.faults K.taken K.has_failed out.new)) (site_state S.faults S.told S.book site.new) (wire_state W.faults W.told W.listens W.is_open wire.new))
        result }
    ensures site_beside { S.beside site.old site.new }
    ensures wire_beside { W.beside wire.old wire.new }
{
    match open_at(alloc, dir, site) {
        Ok(mut gateway) => serve_at(alloc, &mut gateway, listen, connections, site, wire, out),
        Err(outcome) => outcome,
    }
}

/// Serves an open gateway.
fn serve_at<S: Site, W: Wire, K: Sink>(
    alloc: Global,
    gateway: &mut Gateway,
    listen: &Address,
    connections: u32,
    site: &mut S,
    wire: &mut W,
    out: &mut K,
) -> Outcome
    requires failed { K.has_failed out.old ≡ false }
    requires closed { W.is_open wire.old ≡ false }
    requires within { is_broken gateway.old ≡ false → GateWithin gateway.old (S.told site.old) }
    ensures works { (input : SourceState) → ServeWorks listen.now connections gateway.old
        (outside (streams input (sink K.faults K.taken K.has_failed out.old)) (site_state S.faults S.told S.book site.old) (wire_state W.faults W.told W.listens W.is_open wire.old))
        (outside (streams input (sink K.faults K.taken K.has_failed out.new)) (site_state S.faults S.told S.book site.new) (wire_state W.faults W.told W.listens W.is_open wire.new))
        result }
    ensures site_beside { S.beside site.old site.new }
    ensures wire_beside { W.beside wire.old wire.new }
{
    let Ok(()) = wire.listen(listen) else {
        return Outcome::Peer(PeerEnd::Wire);
    };
    let told = say(out, b"listening\n");
    let served = serve_all(alloc, gateway, connections, site, wire);
    match told {
        Ok(()) => conclude(connections, served, out),
        Err(SinkFault) => unprinted(served),
    }
}

/// Prints what was served, if all was, and ends so.
fn conclude<K: Sink>(connections: u32, served: Result<Tally, Outcome>, out: &mut K) -> Outcome
    requires failed { K.has_failed out.old ≡ false }
    ensures { Prints connections served (sink K.faults K.taken K.has_failed out.old) (sink K.faults K.taken K.has_failed out.new) result }
{
    match served {
        Ok(tally) => match say_served(connections, tally, out) {
            Ok(()) => Outcome::Done,
            Err(SinkFault) => Outcome::OutputFailed,
        },
        Err(outcome) => outcome,
    }
}

/// How serving ends where its first line wasn't printed.
fn unprinted(served: Result<Tally, Outcome>) -> Outcome
    ensures { result ≡ unprinted served }
{
    match served {
        Err(Outcome::Memory) => Outcome::Memory,
        _ => Outcome::OutputFailed,
    }
}

/// Prints how many connections were served, and what came of them.
fn say_served<K: Sink>(connections: u32, tally: Tally, out: &mut K) -> Result<(), SinkFault>
    requires failed { K.has_failed out.old ≡ false }
    ensures { Says (served_line connections tally) (sink K.faults K.taken K.has_failed out.old) (sink K.faults K.taken K.has_failed out.new) result }
{
    match say_numbered(out, b"served ", connections as u64, b" connections, ") {
        Ok(()) => say_tally(tally, out),
        Err(fault) => Err(fault),
    }
}

fn say_tally<K: Sink>(tally: Tally, out: &mut K) -> Result<(), SinkFault>
    requires failed { K.has_failed out.old ≡ false }
    ensures { Says (tally_text tally) (sink K.faults K.taken K.has_failed out.old) (sink K.faults K.taken K.has_failed out.new) result }
{
    match say_numbered(out, b"", tally.requests, b" requests, ") {
        Ok(()) => say_numbered(out, b"", tally.faults as u64, b" faults\n"),
        Err(fault) => Err(fault),
    }
}
