// What is heard after a text is posted, and what comes of it.

use satp_http::HttpFault;
use satp_post::PostFault;

/// The request that posts `{}`.
pub const REQUEST: &[u8] =
    b"POST /satp HTTP/1.1\r\nHost: 127.0.0.1:7002\r\nContent-Type: application/jose\r\nContent-Length: 2\r\n\r\n{}";

/// An answer with a text, and one without.
pub const ANSWER: &[u8] =
    b"HTTP/1.1 200 OK\r\nContent-Type: application/jose\r\nContent-Length: 3\r\n\r\nyes";

pub const NOTHING: &[u8] = b"HTTP/1.1 204 No Content\r\n\r\n";

/// Both, one after the other.
pub const TWO: &[u8] =
    b"HTTP/1.1 200 OK\r\nContent-Type: application/jose\r\nContent-Length: 3\r\n\r\nyesHTTP/1.1 204 No Content\r\n\r\n";

/// An answer, or why there is none.
#[derive(Clone, Copy, Debug, PartialEq, Eq)]
pub enum Wanted {
    Answer(u16, &'static [u8]),
    Fault(PostFault),
}

/// Bytes that are heard and then the end, which call on the wire fails (the first connects, the second says the request, the third hears), what comes of the post, and what is said.
pub type Row = (&'static [u8], u64, Wanted, &'static [u8]);

pub const ROWS: [Row; 14] = [
    (ANSWER, 0, Wanted::Answer(200, b"yes"), REQUEST),
    (NOTHING, 0, Wanted::Answer(204, b""), REQUEST),
    (TWO, 0, Wanted::Answer(200, b"yes"), REQUEST),
    (
        b"HTTP/1.1 100 Continue\r\n\r\nHTTP/1.1 409 Conflict\r\nContent-Length: 2\r\n\r\nno",
        0,
        Wanted::Answer(409, b"no"),
        REQUEST,
    ),
    (
        b"HTTP/1.1 200 OK\r\nContent-Length: 0\r\n\r\n\0",
        0,
        Wanted::Answer(200, b""),
        REQUEST,
    ),
    (b"", 0, Wanted::Fault(PostFault::Early), REQUEST),
    (
        b"HTTP/1.1 200 OK\r\nContent-Length: 3\r\n\r\nye",
        0,
        Wanted::Fault(PostFault::Early),
        REQUEST,
    ),
    (
        b"HTTP/1.1 100 Continue\r\n\r\n",
        0,
        Wanted::Fault(PostFault::Early),
        REQUEST,
    ),
    (
        b"\0",
        0,
        Wanted::Fault(PostFault::NotHttp {
            fault: HttpFault::Head,
        }),
        REQUEST,
    ),
    (
        b"HTTP/1.1 200 OK\r\nTransfer-Encoding: chunked\r\n\r\n",
        0,
        Wanted::Fault(PostFault::NotHttp {
            fault: HttpFault::Chunked,
        }),
        REQUEST,
    ),
    (
        b"HTTP/1.1 200 OK\r\nContent-Length: 8193\r\n\r\n",
        0,
        Wanted::Fault(PostFault::NotHttp {
            fault: HttpFault::BodyLong { length: 8193 },
        }),
        REQUEST,
    ),
    (
        ANSWER,
        2,
        Wanted::Fault(PostFault::Wire { said: false }),
        b"",
    ),
    (
        ANSWER,
        3,
        Wanted::Fault(PostFault::Wire { said: true }),
        REQUEST,
    ),
    (
        b"HTTP/1.1 200 OK\r\nContent-Length: 3\r\n\r\nye",
        4,
        Wanted::Fault(PostFault::Wire { said: true }),
        REQUEST,
    ),
];
