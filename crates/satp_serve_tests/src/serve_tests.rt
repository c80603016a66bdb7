ghost use Rattle.std.specs.Prelude.{◌≡◌, true, false};

use crate::rows::{CONTINUED, REFUSED, REFUSED_LAST, ROWS, Row, SHORT, WAITING, WORKED};
use crate::script::Script;
use satp_base::{Address, Text, Wire};
use satp_memory::MemWire;
use satp_serve::{Connection, ConnectionEnd, Served, Turn, serve_connection_over};
use std::alloc::Global;

/// Connects and serves. None where no connection is opened.
fn serve(alloc: Global, wire: &mut MemWire, at: &Address) -> Option<Connection>
    requires { wire.old.is_open ≡ false }
{
    match wire.connect(at) {
        Ok(()) => {
            let mut site = 0;
            Some(serve_connection_over(alloc, &mut Script, &mut site, wire))
        }
        Err(_) => None,
    }
}

/// What comes of a connection whose peer says these bytes, and whether these are said to it.
fn answers(alloc: Global, heard: &[u8], fails: u64, said: &[u8]) -> Option<(Connection, bool)> {
    let at = Address::read(b"127.0.0.1:7002").ok()?;
    let mut wire = MemWire::new(alloc, heard).ok()?;
    wire.fail(fails).ok()?;
    let connection = serve(alloc, &mut wire, &at)?;
    Some((connection, wire.said() == said))
}

fn is_so(alloc: Global, row: &Row) -> bool {
    let (heard, fails, said, requests, end) = *row;
    answers(alloc, heard, fails, said) == Some((Connection { requests, end }, true))
}

/// So many copies of a piece, and then a last one.
fn copies(alloc: Global, piece: &[u8], count: u32, last: &[u8]) -> Option<Text> {
    let mut text = Text::copy(alloc, b"").ok()?;
    for _ in 0..count {
        text.append(piece).ok()?;
    }
    text.append(last).ok()?;
    Some(text)
}

/// What comes of so many requests on one connection, and whether so many answers are said before this last one.
fn repeats(alloc: Global, requests: u32, answered: u32, last: &[u8]) -> Option<(Connection, bool)> {
    let heard = copies(alloc, SHORT, requests, b"")?;
    let said = copies(alloc, REFUSED, answered, last)?;
    answers(alloc, heard.bytes(), 0, said.bytes())
}

/// Whether both pieces leave the connection open, and this is said to them.
fn says(alloc: Global, first: &[u8], second: &[u8], wanted: &[u8]) -> Option<bool> {
    let mut served = Served::new(alloc).ok()?;
    let mut said = Text::copy(alloc, b"").ok()?;
    let mut site = 0;
    let turn = served.serve_over(alloc, &mut Script, &mut site, first, &mut said);
    let again = served.serve_over(alloc, &mut Script, &mut site, second, &mut said);
    Some(turn == Ok(Turn::More) && again == Ok(Turn::More) && said.bytes() == wanted)
}

/// The first cut of the worked request at which something else is said to it.
fn first_other_cut(alloc: Global) -> Option<usize> {
    (0..WORKED.len()).find(|at| {
        let at = (*at).min(WORKED.len());
        says(alloc, &WORKED[..at], &WORKED[at..], REFUSED) != Some(true)
    })
}

fn ended(requests: u32, end: ConnectionEnd) -> Option<(Connection, bool)> {
    Some((Connection { requests, end }, true))
}

#[test]
fn what_is_said_to_what_is_heard(rt: HostRuntime) {
    let alloc = rt.alloc();
    let first_other = ROWS.iter().position(|row| !is_so(alloc, row));
    assert_eq!(rt; first_other, None);
}

#[test]
fn pieces(rt: HostRuntime) {
    let alloc = rt.alloc();
    let continued = says(alloc, WAITING, b"{}", CONTINUED);
    assert_eq!(rt; (first_other_cut(alloc), continued), (None, Some(true)));
}

#[test]
fn many_requests(rt: HostRuntime) {
    let alloc = rt.alloc();
    let given = [
        repeats(alloc, 63, 63, b""),
        repeats(alloc, 64, 63, REFUSED_LAST),
        repeats(alloc, 65, 63, REFUSED_LAST),
    ];
    let wanted = [
        ended(63, ConnectionEnd::Ended),
        ended(64, ConnectionEnd::Closed),
        ended(64, ConnectionEnd::Closed),
    ];
    assert_eq!(rt; given, wanted);
}
