// One end of a connection: a server takes requests, a client takes answers.

use satp_base::Memory;
use satp_http::{HttpFault, Requests, Responses, Taken};
use std::alloc::Global;

/// Which end reads the bytes.
#[derive(Clone, Copy, Debug, PartialEq, Eq)]
pub enum Side {
    Server,
    Client,
}

#[derive(Drop)]
enum End {
    Server(Requests),
    Client(Responses),
}

fn begin(alloc: Global, side: Side) -> Result<End, Memory> {
    match side {
        Side::Server => Ok(End::Server(Requests::new(alloc)?)),
        Side::Client => Ok(End::Client(Responses::new(alloc)?)),
    }
}

/// Feeds a piece, and counts what is whole then.
fn feed(alloc: Global, end: &mut End, piece: &[u8]) -> Result<usize, HttpFault> {
    match end {
        End::Server(requests) => {
            let _ = requests.feed(piece);
            requests_held(alloc, requests)
        }
        End::Client(responses) => {
            let _ = responses.feed(piece);
            answers_held(alloc, responses)
        }
    }
}

fn requests_held(alloc: Global, requests: &mut Requests) -> Result<usize, HttpFault> {
    for count in 0..4 {
        match requests.take(alloc)? {
            Taken::Request(_) => {}
            _ => return Ok(count),
        }
    }
    Ok(4)
}

fn answers_held(alloc: Global, responses: &mut Responses) -> Result<usize, HttpFault> {
    for count in 0..4 {
        if responses.take(alloc)?.is_none() {
            return Ok(count);
        }
    }
    Ok(4)
}

fn feed_all(alloc: Global, end: &mut End, bytes: &[u8]) -> Result<usize, HttpFault> {
    let mut count: usize = 0;
    for piece in bytes.chunks(1) {
        count = count.wrapping_add(feed(alloc, end, piece)?);
    }
    Ok(count)
}

fn feed_both(
    alloc: Global,
    end: &mut End,
    first: &[u8],
    second: &[u8],
) -> Result<usize, HttpFault> {
    let before = feed(alloc, end, first)?;
    let after = feed(alloc, end, second)?;
    Ok(before.wrapping_add(after))
}

/// How many requests or answers come byte for byte, or their fault.
pub fn byte_for_byte(alloc: Global, side: Side, bytes: &[u8]) -> Result<usize, HttpFault> {
    match begin(alloc, side) {
        Ok(mut end) => feed_all(alloc, &mut end, bytes),
        Err(Memory) => Err(HttpFault::Memory),
    }
}

/// How many come in two pieces, or their fault.
pub fn cut(alloc: Global, side: Side, bytes: &[u8], at: usize) -> Result<usize, HttpFault> {
    let at = at.min(bytes.len());
    match begin(alloc, side) {
        Ok(mut end) => feed_both(alloc, &mut end, &bytes[..at], &bytes[at..]),
        Err(Memory) => Err(HttpFault::Memory),
    }
}
