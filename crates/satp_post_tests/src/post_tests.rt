ghost use Rattle.std.specs.Prelude.{◌≡◌, true, IfSome};

use crate::rows::{ANSWER, ROWS, Row, TWO, Wanted};
use satp_base::{Address, Text, Wire};
use satp_http::{Answered, Responses};
use satp_memory::MemWire;
use satp_post::{PostFault, post};
use std::alloc::Global;

/// A wire with an open connection, whose peer says these bytes, and one call of which fails.
fn connected(alloc: Global, at: &Address, heard: &[u8], fails: u64) -> Option<MemWire>
    ensures { IfSome result (λ wire. wire.is_open ≡ true) }
{
    let mut wire = MemWire::new(alloc, heard).ok()?;
    wire.fail(fails).ok()?;
    match wire.connect(at) {
        Ok(()) => Some(wire),
        Err(_) => None,
    }
}

fn is_wanted(posted: &Result<Answered, PostFault>, wanted: Wanted) -> bool {
    match (posted, wanted) {
        (Ok(answered), Wanted::Answer(code, body)) => {
            answered.code == code && answered.body.bytes() == body
        }
        (Err(fault), Wanted::Fault(wanted)) => *fault == wanted,
        _ => false,
    }
}

/// Whether a post of `{}` comes to this.
fn is_so(alloc: Global, row: &Row) -> Option<bool> {
    let (heard, fails, wanted, said) = *row;
    let at = Address::read(b"127.0.0.1:7002").ok()?;
    let mut wire = connected(alloc, &at, heard, fails)?;
    let mut responses = Responses::new(alloc).ok()?;
    let posted = post(alloc, &mut wire, &mut responses, &at, b"{}");
    Some(is_wanted(&posted, wanted) && wire.said() == said)
}

/// Two posts of which the peer answers both at once: whether the answers come in order, and how many calls on the wire that takes.
fn twice(alloc: Global) -> Option<(bool, bool, u64)> {
    let at = Address::read(b"127.0.0.1:7002").ok()?;
    let mut wire = connected(alloc, &at, TWO, 0)?;
    let mut responses = Responses::new(alloc).ok()?;
    let first = post(alloc, &mut wire, &mut responses, &at, b"{}");
    let second = post(alloc, &mut wire, &mut responses, &at, b"{}");
    Some((
        is_wanted(&first, Wanted::Answer(200, b"yes")),
        is_wanted(&second, Wanted::Answer(204, b"")),
        wire.count(),
    ))
}

/// What comes after so many interim answers.
fn after_interim(alloc: Global, count: u32, wanted: Wanted) -> Option<bool> {
    let mut heard = Text::copy(alloc, b"").ok()?;
    for _ in 0..count {
        heard.append(b"HTTP/1.1 100 Continue\r\n\r\n").ok()?;
    }
    heard.append(ANSWER).ok()?;
    let at = Address::read(b"127.0.0.1:7002").ok()?;
    let mut wire = connected(alloc, &at, heard.bytes(), 0)?;
    let mut responses = Responses::new(alloc).ok()?;
    Some(is_wanted(&post(alloc, &mut wire, &mut responses, &at, b"{}"), wanted))
}

#[test]
fn what_comes_of_a_post(rt: HostRuntime) {
    let alloc = rt.alloc();
    let first_other = ROWS.iter().position(|row| is_so(alloc, row) != Some(true));
    assert_eq!(rt; first_other, None);
}

#[test]
fn answers_in_a_row(rt: HostRuntime) {
    let alloc = rt.alloc();
    let interim = satp_http::HttpFault::Interim;
    let given = (
        twice(alloc),
        after_interim(alloc, 16, Wanted::Answer(200, b"yes")),
        after_interim(
            alloc,
            17,
            Wanted::Fault(PostFault::NotHttp { fault: interim }),
        ),
    );
    assert_eq!(rt; given, (Some((true, true, 4)), Some(true), Some(true)));
}
