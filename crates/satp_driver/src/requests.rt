use crate::fault::DriverFault;
use satp_http::{HttpFault, Requests, Taken};
use std::alloc::Global;
use std::io::Read;
use std::num::NonZeroUsize;

/// How many bytes are read at once.
const READ: usize = 65_536;

/// How many requests a stream holds, fed in pieces of at most so many bytes.
pub fn count_requests<R: Read>(
    alloc: Global,
    input: &mut R,
    piece: NonZeroUsize,
) -> Result<u64, DriverFault> {
    let mut requests = Requests::new(alloc)?;
    let mut held = vec![in alloc; 0; READ]?;
    let mut count: u64 = 0;
    for _ in 0..u64::MAX {
        let length = input.read(&mut held)?;
        if length == 0 {
            break;
        }
        let taken = take_pieces(alloc, &mut requests, &held[..length], piece)?;
        count = count.saturating_add(taken);
    }
    Ok(count)
}

/// Feeds the pieces of some bytes, and says how many requests came whole by them.
fn take_pieces(
    alloc: Global,
    requests: &mut Requests,
    bytes: &[u8],
    piece: NonZeroUsize,
) -> Result<u64, DriverFault> {
    let mut count: u64 = 0;
    for piece in bytes.chunks(piece.get()) {
        count = count.saturating_add(take_from(alloc, requests, piece)?);
    }
    Ok(count)
}

/// Feeds a piece, and says how many requests came whole by it.
fn take_from(alloc: Global, requests: &mut Requests, piece: &[u8]) -> Result<u64, DriverFault> {
    let mut rest = piece;
    let mut count: u64 = 0;
    for _ in 0..piece.len() {
        if rest.is_empty() {
            break;
        }
        let added = requests.feed(rest);
        rest = &rest[added..];
        count = count.saturating_add(take_whole(alloc, requests)?);
    }
    Ok(count)
}

/// Takes the requests that are held whole.
fn take_whole(alloc: Global, requests: &mut Requests) -> Result<u64, DriverFault> {
    let mut count: u64 = 0;
    for _ in 0..=requests.held() {
        match requests.take(alloc) {
            Ok(Taken::More) => break,
            Ok(Taken::Continue) => (),
            Ok(Taken::Request(_)) => count = count.saturating_add(1),
            Err(HttpFault::Memory) => return Err(DriverFault::Memory),
            Err(_) => return Err(DriverFault::Line),
        }
    }
    Ok(count)
}
