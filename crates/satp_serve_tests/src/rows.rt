// What is heard and what is said to it.

use satp_serve::ConnectionEnd;

/// A request as another program writes it.
pub const WORKED: &[u8] =
    b"POST /satp HTTP/1.1\r\nHost: 127.0.0.1:7002\r\nUser-Agent: curl/8.5.0\r\nAccept: */*\r\nContent-Type: application/jose\r\nContent-Length: 2\r\n\r\n{}";

/// The answer to it.
pub const REFUSED: &[u8] =
    b"HTTP/1.1 400 Bad Request\r\nContent-Type: text/plain\r\nContent-Length: 12\r\n\r\njws parts 1\n";

/// The same where it is the last.
pub const REFUSED_LAST: &[u8] =
    b"HTTP/1.1 400 Bad Request\r\nContent-Type: text/plain\r\nContent-Length: 12\r\nConnection: close\r\n\r\njws parts 1\n";

/// A short request with that answer.
pub const SHORT: &[u8] = b"POST /satp HTTP/1.1\r\nHost: a\r\nContent-Length: 0\r\n\r\n";

/// A request whose client waits before it sends the body.
pub const WAITING: &[u8] =
    b"POST /satp HTTP/1.1\r\nHost: a\r\nExpect: 100-continue\r\nContent-Length: 2\r\n\r\n";

/// The interim answer, and then that to the body.
pub const CONTINUED: &[u8] =
    b"HTTP/1.1 100 Continue\r\n\r\nHTTP/1.1 400 Bad Request\r\nContent-Type: text/plain\r\nContent-Length: 12\r\n\r\njws parts 1\n";

/// Bytes that are heard and then the end, which call on the wire fails (the first connects, the second hears), what is said, how many requests are handed over, and why it ends.
pub type Row = (&'static [u8], u64, &'static [u8], u32, ConnectionEnd);

pub const ROWS: [Row; 30] = [
    (b"", 0, b"", 0, ConnectionEnd::Ended),
    (WORKED, 0, REFUSED, 1, ConnectionEnd::Ended),
    (
        b"POST /satp HTTP/1.1\r\nHo",
        0,
        b"",
        0,
        ConnectionEnd::Ended,
    ),
    (
        b"POST /satp HTTP/1.1\r\nHost: a\r\nContent-Length: 2\r\nContent-Length: 02\r\n\r\n{}",
        0,
        REFUSED,
        1,
        ConnectionEnd::Ended,
    ),
    (
        b"POST /satp HTTP/1.1\r\nHost: a\r\nContent-Length: 2\r\nContent-Length: 3\r\n\r\n{}",
        0,
        b"HTTP/1.1 400 Bad Request\r\nContent-Type: text/plain\r\nContent-Length: 11\r\nConnection: close\r\n\r\nlength bad\n",
        0,
        ConnectionEnd::Closed,
    ),
    (
        b"POST /satp HTTP/1.1\r\nHost: a\r\nContent-Length: +2\r\n\r\n{}",
        0,
        b"HTTP/1.1 400 Bad Request\r\nContent-Type: text/plain\r\nContent-Length: 11\r\nConnection: close\r\n\r\nlength bad\n",
        0,
        ConnectionEnd::Closed,
    ),
    (
        b"POST /satp HTTP/1.1\r\nHost: a\r\nTransfer-Encoding: chunked\r\nContent-Length: 2\r\n\r\n{}",
        0,
        b"HTTP/1.1 501 Not Implemented\r\nContent-Type: text/plain\r\nContent-Length: 8\r\nConnection: close\r\n\r\nchunked\n",
        0,
        ConnectionEnd::Closed,
    ),
    (
        b"POST /satp HTTP/1.1\r\nHost: a\r\nContent-Length: 8193\r\n\r\n",
        0,
        b"HTTP/1.1 413 Payload Too Large\r\nContent-Type: text/plain\r\nContent-Length: 15\r\nConnection: close\r\n\r\nbody long 8193\n",
        0,
        ConnectionEnd::Closed,
    ),
    (SHORT, 0, REFUSED, 1, ConnectionEnd::Ended),
    (
        b"POST /satp HTTP/1.0\r\nHost: a\r\nContent-Length: 2\r\n\r\n{}",
        0,
        b"HTTP/1.1 505 HTTP Version Not Supported\r\nContent-Type: text/plain\r\nContent-Length: 8\r\nConnection: close\r\n\r\nversion\n",
        0,
        ConnectionEnd::Closed,
    ),
    (
        b"POST /satp HTTP/1.1\r\nContent-Length: 2\r\n\r\n{}",
        0,
        b"HTTP/1.1 400 Bad Request\r\nContent-Type: text/plain\r\nContent-Length: 8\r\nConnection: close\r\n\r\nno host\n",
        0,
        ConnectionEnd::Closed,
    ),
    (
        b"POST /satp HTTP/1.1\r\nHost: a\r\nHost: b\r\nContent-Length: 2\r\n\r\n{}",
        0,
        b"HTTP/1.1 400 Bad Request\r\nContent-Type: text/plain\r\nContent-Length: 10\r\nConnection: close\r\n\r\ntwo hosts\n",
        0,
        ConnectionEnd::Closed,
    ),
    (
        b"GET /satp HTTP/1.1\r\nHost: a\r\n\r\n",
        0,
        b"HTTP/1.1 405 Method Not Allowed\r\nAllow: POST\r\nContent-Type: text/plain\r\nContent-Length: 7\r\nConnection: close\r\n\r\nmethod\n",
        0,
        ConnectionEnd::Closed,
    ),
    (
        b"POST / HTTP/1.1\r\nHost: a\r\nContent-Length: 2\r\n\r\n{}",
        0,
        b"HTTP/1.1 404 Not Found\r\nContent-Type: text/plain\r\nContent-Length: 7\r\nConnection: close\r\n\r\ntarget\n",
        0,
        ConnectionEnd::Closed,
    ),
    (
        b"POST /satp HTTP/1.1\r\nHost: a\r\n\r\n",
        0,
        b"HTTP/1.1 411 Length Required\r\nContent-Type: text/plain\r\nContent-Length: 15\r\nConnection: close\r\n\r\nlength missing\n",
        0,
        ConnectionEnd::Closed,
    ),
    (
        b"POST /satp HTTP/1.1\r\nHost: a\r\nExpect: 200-ok\r\nContent-Length: 2\r\n\r\n{}",
        0,
        b"HTTP/1.1 417 Expectation Failed\r\nContent-Type: text/plain\r\nContent-Length: 7\r\nConnection: close\r\n\r\nexpect\n",
        0,
        ConnectionEnd::Closed,
    ),
    (
        b"POST /satp HTTP/1.1\r\nHost: a\r\nContent-Encoding: gzip\r\nContent-Length: 2\r\n\r\n{}",
        0,
        b"HTTP/1.1 415 Unsupported Media Type\r\nContent-Type: text/plain\r\nContent-Length: 7\r\nConnection: close\r\n\r\ncoding\n",
        0,
        ConnectionEnd::Closed,
    ),
    (
        b"\0",
        0,
        b"HTTP/1.1 400 Bad Request\r\nContent-Type: text/plain\r\nContent-Length: 5\r\nConnection: close\r\n\r\nhead\n",
        0,
        ConnectionEnd::Closed,
    ),
    (
        b"POST /satp HTTP/1.1\r\nHost: a\r\nContent-Length: 0\r\n\r\n\0",
        0,
        b"HTTP/1.1 400 Bad Request\r\nContent-Type: text/plain\r\nContent-Length: 12\r\n\r\njws parts 1\nHTTP/1.1 400 Bad Request\r\nContent-Type: text/plain\r\nContent-Length: 5\r\nConnection: close\r\n\r\nhead\n",
        1,
        ConnectionEnd::Closed,
    ),
    (
        WAITING,
        0,
        b"HTTP/1.1 100 Continue\r\n\r\n",
        0,
        ConnectionEnd::Ended,
    ),
    (
        b"POST /satp HTTP/1.1\r\nHost: a\r\nConnection: close\r\nContent-Length: 2\r\n\r\n{}POST /satp HTTP/1.1\r\nHost: a\r\nContent-Length: 1\r\n\r\ns",
        0,
        REFUSED_LAST,
        1,
        ConnectionEnd::Closed,
    ),
    (
        b"POST /satp HTTP/1.1\r\nHost: a\r\nContent-Length: 1\r\n\r\nnPOST /satp HTTP/1.1\r\nHost: a\r\nContent-Length: 2\r\n\r\nee",
        0,
        b"HTTP/1.1 204 No Content\r\n\r\nHTTP/1.1 200 OK\r\nContent-Type: application/jose\r\nContent-Length: 2\r\n\r\nee",
        2,
        ConnectionEnd::Ended,
    ),
    (
        b"POST /satp HTTP/1.1\r\nHost: a\r\nContent-Length: 1\r\n\r\nsPOST /satp HTTP/1.1\r\nHost: a\r\nContent-Length: 1\r\n\r\nn",
        0,
        b"HTTP/1.1 503 Service Unavailable\r\nContent-Type: text/plain\r\nContent-Length: 5\r\nConnection: close\r\n\r\nsite\n",
        1,
        ConnectionEnd::Site,
    ),
    (
        b"POST /satp HTTP/1.1\r\nHost: a\r\nContent-Length: 1\r\n\r\nm",
        0,
        b"HTTP/1.1 503 Service Unavailable\r\nContent-Type: text/plain\r\nContent-Length: 7\r\nConnection: close\r\n\r\nmemory\n",
        1,
        ConnectionEnd::Memory,
    ),
    (
        b"POST /satp HTTP/1.1\r\nHost: a\r\nContent-Length: 1\r\n\r\nnPOST /satp HTTP/1.1\r\nHost: a\r\nContent-Length: 1\r\n\r\nc",
        0,
        b"HTTP/1.1 204 No Content\r\n\r\n",
        2,
        ConnectionEnd::Closed,
    ),
    (WORKED, 2, b"", 0, ConnectionEnd::Wire),
    (WORKED, 3, b"", 1, ConnectionEnd::Wire),
    (WORKED, 4, REFUSED, 1, ConnectionEnd::Wire),
    (
        b"POST /satp HTTP/1.1\r\nHost: a\r\nContent-Length: 1\r\n\r\ns",
        3,
        b"",
        1,
        ConnectionEnd::Site,
    ),
    (
        b"POST /satp HTTP/1.1\r\nHost: a\r\nContent-Length: 1\r\n\r\nm",
        3,
        b"",
        1,
        ConnectionEnd::Memory,
    ),
];
