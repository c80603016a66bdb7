// A connection that is served over a wire.
ghost use Rattle.std.specs.Prelude.{◌≡◌, ◌≤◌, Ok, true, false, length, option_map};
ghost use Rattle.satp_base.specs.Streams.{Rose};
ghost use Rattle.satp_serve.specs.Connections.{ConnectionAnswers, Hears, Responds, SaysLast};
ghost use Rattle.satp_serve.specs.Feeding.{standing, talk, unheard};

use crate::responder::Responder;
use crate::served::Served;
use crate::turn::{ServeFault, Turn};
use satp_base::{Text, Wire, WireFault};
use satp_wires::say_all;
use std::alloc::Global;

/// The most bytes that are read of one connection.
const MOST_HEARD: usize = 1_048_576;

/// The most bytes that are read at once.
const PIECE: usize = 1024;

/// Why a connection ended.
#[derive(Clone, Copy, Debug, PartialEq, Eq)]
pub enum ConnectionEnd {
    /// This side closes it: after an answer that says so, or after 1,048,576 bytes.
    Closed,
    /// The peer ended it before that.
    Ended,
    /// A call on the wire failed.
    Wire,
    /// A call on the site failed, whatever the wire did with the last answer.
    Site,
    /// No memory was found, whatever the wire did with the last answer.
    Memory,
}

/// What came of a connection.
#[derive(Clone, Copy, Debug, PartialEq, Eq)]
pub struct Connection {
    /// How many requests were handed over, at most 64.
    pub requests: u32,
    pub end: ConnectionEnd,
}

/// Says the last bytes, as many as the wire takes.
fn say_last<W: Wire>(wire: &mut W, bytes: &[u8])
    requires { W.is_open wire.old ≡ true }
    ensures says { SaysLast bytes.now (W.told wire.old) (W.told wire.new) (W.faults wire.old) (W.faults wire.new) }
    ensures open { W.is_open wire.new ≡ true }
    ensures listens { W.listens wire.new ≡ W.listens wire.old }
    ensures beside { W.beside wire.old wire.new }
    ensures later { W.faults wire.old ≤ W.faults wire.new }
{
    match say_all(wire, bytes) {
        Ok(()) => {}
        Err(WireFault) => {}
    }
}

/// Answers a piece of what was heard. `said` has no bytes when it is called.
fn respond<S, G: Responder<S>, W: Wire>(
    alloc: Global,
    responder: &mut G,
    site: &mut S,
    wire: &mut W,
    served: &mut Served,
    piece: &[u8],
    said: &mut Text,
) -> Result<Turn, ConnectionEnd>
    requires open { W.is_open wire.old ≡ true }
    requires unclosed { served.old.closed ≡ false }
    requires fits { G.fits responder.old site.old }
    ensures responds { Responds G.replies served.old.feed served.new.feed (talk served.old responder.old site.old said.old) (talk served.new responder.new site.new said.new) piece.now (W.told wire.old) (W.told wire.new) (W.faults wire.old) (W.faults wire.new) result }
    ensures fits { result ≡ Ok Turn.More → G.fits responder.new site.new }
    ensures unclosed { result ≡ Ok Turn.More → served.new.closed ≡ false }
    ensures open { W.is_open wire.new ≡ true }
    ensures listens { W.listens wire.new ≡ W.listens wire.old }
    ensures beside { W.beside wire.old wire.new }
    ensures later { W.faults wire.old ≤ W.faults wire.new }
{
    match served.serve_over(alloc, responder, site, piece, said) {
        Ok(turn) => match say_all(wire, said.bytes()) {
            Ok(()) => Ok(turn),
            Err(_) => Err(ConnectionEnd::Wire),
        },
        Err(ServeFault::Site) => {
            say_last(wire, said.bytes());
            Err(ConnectionEnd::Site)
        }
        Err(ServeFault::Memory) => {
            say_last(wire, said.bytes());
            Err(ConnectionEnd::Memory)
        }
    }
}

/// Hears and answers until one side ends.
fn hear<S, G: Responder<S>, W: Wire>(
    alloc: Global,
    responder: &mut G,
    site: &mut S,
    wire: &mut W,
    served: &mut Served,
) -> ConnectionEnd
    requires open { W.is_open wire.old ≡ true }
    requires unheard { served.old ≡ unheard }
    requires fits { G.fits responder.old site.old }
    ensures hears { Hears G.replies responder.old site.old responder.new site.new served.new.count (W.told wire.old) (W.told wire.new) (W.faults wire.old) (W.faults wire.new) result }
    ensures listens { W.listens wire.new ≡ W.listens wire.old }
    ensures beside { W.beside wire.old wire.new }
    ensures later { W.faults wire.old ≤ W.faults wire.new }
{
    let mut piece = [0; PIECE];
    let mut heard = 0;
    while heard < MOST_HEARD {
        let Ok(mut said) = Text::copy(alloc, b"") else {
            return ConnectionEnd::Memory;
        };
        let room = (MOST_HEARD - heard).min(PIECE);
        let Ok(count) = wire.read(&mut piece[..room]) else {
            return ConnectionEnd::Wire;
        };
        if count == 0 {
            return ConnectionEnd::Ended;
        }
        heard += count;
        match respond(
            alloc,
            responder,
            site,
            wire,
            served,
            &piece[..count],
            &mut said,
        ) {
            Ok(Turn::More) => {}
            Ok(Turn::Close) => return ConnectionEnd::Closed,
            Err(end) => return end,
        }
    }
    ConnectionEnd::Closed
}

/// Serves the connection that is open by anything that answers bodies, and shuts it.
///
/// It reads at most 1,048,576 bytes. After a call on the wire failed, or heard the end, none is made but `shut`.
pub fn serve_connection_over<S, G: Responder<S>, W: Wire>(
    alloc: Global,
    responder: &mut G,
    site: &mut S,
    wire: &mut W,
) -> Connection
    requires open { W.is_open wire.old ≡ true }
    requires fits { G.fits responder.old site.old }
    ensures says { ConnectionAnswers G.replies responder.old site.old responder.new site.new (W.told wire.old) (W.told wire.new) (W.faults wire.old) (W.faults wire.new) result }
    ensures shut { (W.is_open wire.new ≡ false) × (W.listens wire.new ≡ W.listens wire.old) }
    ensures dials { option_map (λ t. t.dials) (W.told wire.new) ≡ option_map (λ t. t.dials) (W.told wire.old) }
    ensures most { result.requests ≤ 64 }
    ensures beside { W.beside wire.old wire.new }
    ensures wire { result.end ≡ ConnectionEnd.Wire → Rose (W.faults wire.old) (W.faults wire.new) }
    ensures later { W.faults wire.old ≤ W.faults wire.new }
{
    let connection = converse(alloc, responder, site, wire);
    wire.shut();
    connection
}

/// Serves the connection that is open, and leaves it open.
fn converse<S, G: Responder<S>, W: Wire>(
    alloc: Global,
    responder: &mut G,
    site: &mut S,
    wire: &mut W,
) -> Connection
    requires open { W.is_open wire.old ≡ true }
    requires fits { G.fits responder.old site.old }
    ensures says { ConnectionAnswers G.replies responder.old site.old responder.new site.new (W.told wire.old) (W.told wire.new) (W.faults wire.old) (W.faults wire.new) result }
    ensures listens { W.listens wire.new ≡ W.listens wire.old }
    ensures most { result.requests ≤ 64 }
    ensures beside { W.beside wire.old wire.new }
    ensures later { W.faults wire.old ≤ W.faults wire.new }
{
    let Ok(mut served) = Served::new(alloc) else {
        return Connection {
            requests: 0,
            end: ConnectionEnd::Memory,
        };
    };
    let end = hear(alloc, responder, site, wire, &mut served);
    Connection {
        requests: served.count(),
        end,
    }
}
