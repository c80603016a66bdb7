// Connections that are served in turn.
ghost use Rattle.std.specs.Prelude.{◌≡◌, true, false, OnOk};
ghost use Rattle.satp_outcome.specs.Outside.{site_state, wire_state};
ghost use Rattle.satp_peer_commands.specs.Serving.{ServesAll, ServesNext, point};
ghost use Rattle.satp_serve.specs.GatewayReplies.{IsWithin};

use crate::tally::Tally;
use satp_base::{Site, Wire};
use satp_gateway::Gateway;
use satp_outcome::{Outcome, PeerEnd, PlaceEnd};
use satp_serve::{Connection, ConnectionEnd, serve_connection};
use std::alloc::Global;

/// Serves so many connections, one after the other.
///
/// A connection that a fault of the wire ended is counted, and serving goes on. It ends before the last one with `Peer` and `Wire` where a connection isn't accepted, and with
/// `Place` and `Site`, or `Memory`, after a connection that ended so.
pub(crate) fn serve_all<S: Site, W: Wire>(
    alloc: Global,
    gateway: &mut Gateway,
    connections: u32,
    site: &mut S,
    wire: &mut W,
) -> Result<Tally, Outcome>
    requires listens { W.listens wire.old ≡ true }
    requires closed { W.is_open wire.old ≡ false }
    requires within { IsWithin gateway.old (S.told site.old) }
    ensures serves { ServesAll connections (point gateway.old (site_state S.faults S.told S.book site.old) (wire_state W.faults W.told W.listens W.is_open wire.old)) (point gateway.new (site_state S.faults S.told S.book site.new) (wire_state W.faults W.told W.listens W.is_open wire.new)) result }
    ensures site_beside { S.beside site.old site.new }
    ensures wire_beside { W.beside wire.old wire.new }
{
    let mut tally = Tally {
        requests: 0,
        faults: 0,
    };
    let mut done = 0;
    while done < connections {
        let connection = serve_next(alloc, gateway, site, wire)?;
        tally.add(connection);
        done += 1;
    }
    Ok(tally)
}

/// Accepts a connection, and serves it.
fn serve_next<S: Site, W: Wire>(
    alloc: Global,
    gateway: &mut Gateway,
    site: &mut S,
    wire: &mut W,
) -> Result<Connection, Outcome>
    requires listens { W.listens wire.old ≡ true }
    requires closed { W.is_open wire.old ≡ false }
    requires within { IsWithin gateway.old (S.told site.old) }
    ensures serves { ServesNext (point gateway.old (site_state S.faults S.told S.book site.old) (wire_state W.faults W.told W.listens W.is_open wire.old)) (point gateway.new (site_state S.faults S.told S.book site.new) (wire_state W.faults W.told W.listens W.is_open wire.new)) result }
    ensures within { OnOk result (IsWithin gateway.new (S.told site.new)) }
    ensures site_beside { S.beside site.old site.new }
    ensures wire_beside { W.beside wire.old wire.new }
{
    let Ok(()) = wire.accept() else {
        return Err(Outcome::Peer(PeerEnd::Wire));
    };
    let connection = serve_connection(alloc, gateway, site, wire);
    match connection.end {
        ConnectionEnd::Closed => Ok(connection),
        ConnectionEnd::Ended => Ok(connection),
        ConnectionEnd::Wire => Ok(connection),
        ConnectionEnd::Site => Err(Outcome::Place(PlaceEnd::Site)),
        ConnectionEnd::Memory => Err(Outcome::Memory),
    }
}
