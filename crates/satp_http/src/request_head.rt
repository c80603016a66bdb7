// The head of a request.
ghost use Rattle.std.specs.Prelude.{◌≡◌, MatchResult};
ghost use Rattle.satp_http.specs.Found.{FindsRequest, FramesRequest, IsRequestFault, request_parts_read};

use crate::head::{Found, LONGEST, MOST_LINES, has_many_lines, window};
use crate::{HttpFault, lines};
use httparse::{EMPTY_HEADER, Error, Header, Request, Status};

/// What a head says of its body and of the connection.
#[derive(Clone, Copy)]
pub(crate) struct Framing {
    pub length: usize,
    pub close: bool,
    pub expects: bool,
}

/// What a head says, or its first fault.
fn framing_of(
    method: &[u8],
    target: &[u8],
    minor: u8,
    headers: &[Header<'_>],
) -> Result<Framing, HttpFault>
    ensures { MatchResult result
        (FramesRequest (request_parts_read method.now target.now minor headers.now))
        (IsRequestFault (request_parts_read method.now target.now minor headers.now)) }
{
    if minor != 1 {
        return Err(HttpFault::Version);
    }
    if method != b"POST".as_slice() {
        return Err(HttpFault::Method);
    }
    if target != b"/satp".as_slice() {
        return Err(HttpFault::Target);
    }
    if lines::count(headers, b"host") == 0 {
        return Err(HttpFault::NoHost);
    }
    if lines::count(headers, b"host") > 1 {
        return Err(HttpFault::TwoHosts);
    }
    if lines::count(headers, b"transfer-encoding") > 0 {
        return Err(HttpFault::Chunked);
    }
    if lines::has_other(headers, b"content-encoding", b"identity") {
        return Err(HttpFault::Coding);
    }
    if lines::has_other(headers, b"expect", b"100-continue") {
        return Err(HttpFault::Expect);
    }
    if lines::count(headers, b"content-length") == 0 {
        return Err(HttpFault::LengthMissing);
    }
    let Some(length) = lines::agreed(headers) else {
        return Err(HttpFault::LengthBad);
    };
    if length > LONGEST as u64 {
        return Err(HttpFault::BodyLong { length });
    }
    Ok(Framing {
        length: length as usize,
        close: lines::lists(headers, b"connection", b"close"),
        expects: lines::count(headers, b"expect") > 0,
    })
}

/// What stands at the front of the bytes.
pub(crate) fn find_request(held: &[u8]) -> Found<Framing>
    ensures { FindsRequest held.now result }
{
    let window = window(held);
    let mut headers = [EMPTY_HEADER; MOST_LINES];
    let mut request = Request::new(&mut headers);
    match request.parse(window) {
        Ok(Status::Complete(start)) => {
            // The parser says nowhere that a whole head has no more lines than it was given room for.
            if request.headers.len() > MOST_LINES {
                return Found::Fault(HttpFault::ManyHeaders);
            }
            match framing_of(
                request.method.unwrap().as_bytes(),
                request.path.unwrap().as_bytes(),
                request.version.unwrap(),
                request.headers,
            ) {
                Ok(framing) => Found::Head(start, framing),
                Err(fault) => Found::Fault(fault),
            }
        }
        Ok(Status::Partial) => {
            if has_many_lines(window) {
                return Found::Fault(HttpFault::ManyHeaders);
            }
            if held.len() >= LONGEST {
                return Found::Fault(HttpFault::HeadLong);
            }
            Found::More
        }
        Err(Error::TooManyHeaders) => Found::Fault(HttpFault::ManyHeaders),
        Err(_) => Found::Fault(HttpFault::Head),
    }
}
