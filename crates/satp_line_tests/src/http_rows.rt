// Heads of requests and of answers, as other programs write them or nearly so.

use satp_http::HttpFault;

/// Bytes, and how many requests or answers they are, or their fault.
pub type Row = (&'static [u8], Result<usize, HttpFault>);

/// A request as another program writes it.
pub const WORKED: &[u8] =
    b"POST /satp HTTP/1.1\r\nHost: 127.0.0.1:7002\r\nUser-Agent: curl/8.5.0\r\nAccept: */*\r\nContent-Type: application/jose\r\nContent-Length: 2\r\n\r\n{}";

pub const REQUESTS: [Row; 84] = [
    (WORKED, Ok(1)),
    (
        b"POST /satp HTTP/1.1\r\nHost: a\r\nContent-Length: 2\r\n\r\n{}POST /satp HTTP/1.1\r\nHost: a\r\nContent-Length: 2\r\n\r\n{}",
        Ok(2),
    ),
    (
        b"POST /satp HTTP/1.1\r\nHost: a\r\nContent-Length: 2\r\n\r\n{}\0",
        Err(HttpFault::Head),
    ),
    (
        b"GET /satp HTTP/1.1\r\nHost: a\r\nContent-Length: 2\r\n\r\n{}",
        Err(HttpFault::Method),
    ),
    (
        b"post /satp HTTP/1.1\r\nHost: a\r\nContent-Length: 2\r\n\r\n{}",
        Err(HttpFault::Method),
    ),
    (
        b"PUT /satp HTTP/1.1\r\nHost: a\r\nContent-Length: 2\r\n\r\n{}",
        Err(HttpFault::Method),
    ),
    (
        b"POST1 /satp HTTP/1.1\r\nHost: a\r\nContent-Length: 2\r\n\r\n{}",
        Err(HttpFault::Method),
    ),
    (
        b"POST / HTTP/1.1\r\nHost: a\r\nContent-Length: 2\r\n\r\n{}",
        Err(HttpFault::Target),
    ),
    (
        b"POST /satp/ HTTP/1.1\r\nHost: a\r\nContent-Length: 2\r\n\r\n{}",
        Err(HttpFault::Target),
    ),
    (
        b"POST /satp?a=1 HTTP/1.1\r\nHost: a\r\nContent-Length: 2\r\n\r\n{}",
        Err(HttpFault::Target),
    ),
    (
        b"POST http://a/satp HTTP/1.1\r\nHost: a\r\nContent-Length: 2\r\n\r\n{}",
        Err(HttpFault::Target),
    ),
    (
        b"POST * HTTP/1.1\r\nHost: a\r\nContent-Length: 2\r\n\r\n{}",
        Err(HttpFault::Target),
    ),
    (
        b"POST /SATP HTTP/1.1\r\nHost: a\r\nContent-Length: 2\r\n\r\n{}",
        Err(HttpFault::Target),
    ),
    (
        b"POST /satp HTTP/1.0\r\nHost: a\r\nContent-Length: 2\r\n\r\n{}",
        Err(HttpFault::Version),
    ),
    (
        b"POST /satp HTTP/2.0\r\nHost: a\r\nContent-Length: 2\r\n\r\n{}",
        Err(HttpFault::Head),
    ),
    (
        b"POST /satp HTTP/1.2\r\nHost: a\r\nContent-Length: 2\r\n\r\n{}",
        Err(HttpFault::Head),
    ),
    (
        b"POST /satp http/1.1\r\nHost: a\r\nContent-Length: 2\r\n\r\n{}",
        Err(HttpFault::Head),
    ),
    (
        b"POST /satp HTTP/1.1 \r\nHost: a\r\nContent-Length: 2\r\n\r\n{}",
        Err(HttpFault::Head),
    ),
    (
        b"POST /satp HTTP/11\r\nHost: a\r\nContent-Length: 2\r\n\r\n{}",
        Err(HttpFault::Head),
    ),
    (
        b"POST /satp\r\nHost: a\r\nContent-Length: 2\r\n\r\n{}",
        Err(HttpFault::Head),
    ),
    (
        b"POST  /satp HTTP/1.1\r\nHost: a\r\nContent-Length: 2\r\n\r\n{}",
        Err(HttpFault::Head),
    ),
    (
        b"POST\t/satp HTTP/1.1\r\nHost: a\r\nContent-Length: 2\r\n\r\n{}",
        Err(HttpFault::Head),
    ),
    (
        b" POST /satp HTTP/1.1\r\nHost: a\r\nContent-Length: 2\r\n\r\n{}",
        Err(HttpFault::Head),
    ),
    (
        b"\rPOST /satp HTTP/1.1\r\nHost: a\r\nContent-Length: 2\r\n\r\n{}",
        Err(HttpFault::Head),
    ),
    (
        b"POST /satp\0 HTTP/1.1\r\nHost: a\r\nContent-Length: 2\r\n\r\n{}",
        Err(HttpFault::Head),
    ),
    (
        b"P(ST /satp HTTP/1.1\r\nHost: a\r\nContent-Length: 2\r\n\r\n{}",
        Err(HttpFault::Head),
    ),
    (
        b"\r\n\nPOST /satp HTTP/1.1\r\nHost: a\r\nContent-Length: 2\r\n\r\n{}",
        Ok(1),
    ),
    (
        b"POST /satp HTTP/1.1\nHost: a\nContent-Length: 2\n\n{}",
        Ok(1),
    ),
    (
        b"POST /satp HTTP/1.1\r\nContent-Length: 2\r\n\r\n{}",
        Err(HttpFault::NoHost),
    ),
    (
        b"POST /satp HTTP/1.1\r\nHost: a\r\nhost: a\r\nContent-Length: 2\r\n\r\n{}",
        Err(HttpFault::TwoHosts),
    ),
    (
        b"POST /satp HTTP/1.1\r\nhOST: a\r\nContent-Length: 2\r\n\r\n{}",
        Ok(1),
    ),
    (
        b"POST /satp HTTP/1.1\r\nHost:\r\nContent-Length: 2\r\n\r\n{}",
        Ok(1),
    ),
    (
        b"POST /satp HTTP/1.1\r\nHost: a\r\nHost : a\r\nContent-Length: 2\r\n\r\n{}",
        Err(HttpFault::Head),
    ),
    (
        b"POST /satp HTTP/1.1\r\nHost: a\r\nHost: a\r\n b\r\nContent-Length: 2\r\n\r\n{}",
        Err(HttpFault::Head),
    ),
    (
        b"POST /satp HTTP/1.1\r\nHost: a\r\nHost: a\0\r\nContent-Length: 2\r\n\r\n{}",
        Err(HttpFault::Head),
    ),
    (
        b"POST /satp HTTP/1.1\r\nHost: a\r\nHost: a\rb\r\nContent-Length: 2\r\n\r\n{}",
        Err(HttpFault::Head),
    ),
    (
        b"POST /satp HTTP/1.1\r\nHost: a\r\nHost: a\x7f\r\nContent-Length: 2\r\n\r\n{}",
        Err(HttpFault::Head),
    ),
    (
        b"POST /satp HTTP/1.1\r\nHost: a\r\n: a\r\nContent-Length: 2\r\n\r\n{}",
        Err(HttpFault::Head),
    ),
    (
        b"POST /satp HTTP/1.1\r\nHost: a\r\nHost a\r\nContent-Length: 2\r\n\r\n{}",
        Err(HttpFault::Head),
    ),
    (
        b"POST /satp HTTP/1.1\r\nHost: a\r\nHo\x01st: a\r\nContent-Length: 2\r\n\r\n{}",
        Err(HttpFault::Head),
    ),
    (
        b"POST /satp HTTP/1.1\r\nHost: a\r\n Host: a\r\nContent-Length: 2\r\n\r\n{}",
        Err(HttpFault::Head),
    ),
    (
        b"POST /satp HTTP/1.1\r\nHost: a\r\nA: \xc3\xa9\tb\r\nContent-Length: 2\r\n\r\n{}",
        Ok(1),
    ),
    (
        b"POST /satp HTTP/1.1\r\nHost: a\r\nTransfer-Encoding: chunked\r\nContent-Length: 2\r\n\r\n{}",
        Err(HttpFault::Chunked),
    ),
    (
        b"POST /satp HTTP/1.1\r\nHost: a\r\ntransfer-encoding: identity\r\nContent-Length: 2\r\n\r\n{}",
        Err(HttpFault::Chunked),
    ),
    (
        b"POST /satp HTTP/1.1\r\nHost: a\r\nTRANSFER-ENCODING: gzip, chunked\r\nContent-Length: 2\r\n\r\n{}",
        Err(HttpFault::Chunked),
    ),
    (
        b"POST /satp HTTP/1.1\r\nHost: a\r\nTransfer-Encoding: chunked\r\n\r\n{}",
        Err(HttpFault::Chunked),
    ),
    (
        b"POST /satp HTTP/1.1\r\nHost: a\r\nContent-Encoding: gzip\r\nContent-Length: 2\r\n\r\n{}",
        Err(HttpFault::Coding),
    ),
    (
        b"POST /satp HTTP/1.1\r\nHost: a\r\nContent-Encoding: identity, gzip\r\nContent-Length: 2\r\n\r\n{}",
        Err(HttpFault::Coding),
    ),
    (
        b"POST /satp HTTP/1.1\r\nHost: a\r\nContent-Encoding:\r\nContent-Length: 2\r\n\r\n{}",
        Err(HttpFault::Coding),
    ),
    (
        b"POST /satp HTTP/1.1\r\nHost: a\r\nContent-Encoding: Identity\r\nContent-Length: 2\r\n\r\n{}",
        Ok(1),
    ),
    (
        b"POST /satp HTTP/1.1\r\nHost: a\r\nExpect: 100-Continue\r\nContent-Length: 2\r\n\r\n{}",
        Ok(1),
    ),
    (
        b"POST /satp HTTP/1.1\r\nHost: a\r\nExpect: 200-ok\r\nContent-Length: 2\r\n\r\n{}",
        Err(HttpFault::Expect),
    ),
    (
        b"POST /satp HTTP/1.1\r\nHost: a\r\nExpect: 100-continue, 100-continue\r\nContent-Length: 2\r\n\r\n{}",
        Err(HttpFault::Expect),
    ),
    (
        b"POST /satp HTTP/1.1\r\nHost: a\r\nExpect: 100-continue\r\nExpect: a\r\nContent-Length: 2\r\n\r\n{}",
        Err(HttpFault::Expect),
    ),
    (
        b"POST /satp HTTP/1.1\r\nHost: a\r\n\r\n{}",
        Err(HttpFault::LengthMissing),
    ),
    (
        b"POST /satp HTTP/1.1\r\nHost: a\r\nContent-Length: \r\n\r\n{}",
        Err(HttpFault::LengthBad),
    ),
    (
        b"POST /satp HTTP/1.1\r\nHost: a\r\nContent-Length: +2\r\n\r\n{}",
        Err(HttpFault::LengthBad),
    ),
    (
        b"POST /satp HTTP/1.1\r\nHost: a\r\nContent-Length: -2\r\n\r\n{}",
        Err(HttpFault::LengthBad),
    ),
    (
        b"POST /satp HTTP/1.1\r\nHost: a\r\nContent-Length: 2 2\r\n\r\n{}",
        Err(HttpFault::LengthBad),
    ),
    (
        b"POST /satp HTTP/1.1\r\nHost: a\r\nContent-Length: 2,2\r\n\r\n{}",
        Err(HttpFault::LengthBad),
    ),
    (
        b"POST /satp HTTP/1.1\r\nHost: a\r\nContent-Length: 2, 2\r\n\r\n{}",
        Err(HttpFault::LengthBad),
    ),
    (
        b"POST /satp HTTP/1.1\r\nHost: a\r\nContent-Length: 0x2\r\n\r\n{}",
        Err(HttpFault::LengthBad),
    ),
    (
        b"POST /satp HTTP/1.1\r\nHost: a\r\nContent-Length: 2.0\r\n\r\n{}",
        Err(HttpFault::LengthBad),
    ),
    (
        b"POST /satp HTTP/1.1\r\nHost: a\r\nContent-Length: 1e0\r\n\r\n{}",
        Err(HttpFault::LengthBad),
    ),
    (
        b"POST /satp HTTP/1.1\r\nHost: a\r\nContent-Length: 00000000000000000002\r\n\r\n{}",
        Err(HttpFault::LengthBad),
    ),
    (
        b"POST /satp HTTP/1.1\r\nHost: a\r\nContent-Length: 99999999999999999999\r\n\r\n{}",
        Err(HttpFault::LengthBad),
    ),
    (
        b"POST /satp HTTP/1.1\r\nHost: a\r\nContent-Length: \xd9\xa2\r\n\r\n{}",
        Err(HttpFault::LengthBad),
    ),
    (
        b"POST /satp HTTP/1.1\r\nHost: a\r\nContent-Length: 0000000000000000002\r\n\r\n{}",
        Ok(1),
    ),
    (
        b"POST /satp HTTP/1.1\r\nHost: a\r\nContent-Length:\t2 \r\n\r\n{}",
        Ok(1),
    ),
    (
        b"POST /satp HTTP/1.1\r\nHost: a\r\nContent-Length: 9999999999999999999\r\n\r\n{}",
        Err(HttpFault::BodyLong {
            length: 9999999999999999999,
        }),
    ),
    (
        b"POST /satp HTTP/1.1\r\nHost: a\r\nContent-Length: 8193\r\n\r\n{}",
        Err(HttpFault::BodyLong { length: 8193 }),
    ),
    (
        b"POST /satp HTTP/1.1\r\nHost: a\r\nContent-Length: 2\r\nContent-Length: 2\r\n\r\n{}",
        Ok(1),
    ),
    (
        b"POST /satp HTTP/1.1\r\nHost: a\r\ncontent-length: 02\r\nContent-Length: 2\r\n\r\n{}",
        Ok(1),
    ),
    (
        b"POST /satp HTTP/1.1\r\nHost: a\r\nContent-Length: 3\r\nContent-Length: 2\r\n\r\n{}",
        Err(HttpFault::LengthBad),
    ),
    (
        b"POST /satp HTTP/1.1\r\nHost: a\r\nContent-Length: +2\r\nContent-Length: 2\r\n\r\n{}",
        Err(HttpFault::LengthBad),
    ),
    (
        b"POST /satp HTTP/1.1\r\nHost: a\r\nContent-Length: 1\r\nContent-Length: 2\r\n\r\n{}",
        Err(HttpFault::LengthBad),
    ),
    (
        b"POST /satp HTTP/1.1\r\nHost: a\r\nContent-Length: 0\r\n\r\n",
        Ok(1),
    ),
    (
        b"GET / HTTP/1.0\r\nHost: a\r\nContent-Length: 2\r\n\r\n{}",
        Err(HttpFault::Version),
    ),
    (
        b"GET / HTTP/1.1\r\nContent-Length: 2\r\n\r\n{}",
        Err(HttpFault::Method),
    ),
    (
        b"POST /satp HTTP/1.1\r\nTransfer-Encoding: a\r\nContent-Encoding: a\r\nContent-Length: 2\r\n\r\n{}",
        Err(HttpFault::NoHost),
    ),
    (
        b"POST /satp HTTP/1.1\r\nHost: a\r\nTransfer-Encoding: a\r\nContent-Encoding: a\r\nContent-Length: 2\r\n\r\n{}",
        Err(HttpFault::Chunked),
    ),
    (
        b"POST /satp HTTP/1.1\r\nHost: a\r\nContent-Encoding: a\r\nExpect: a\r\n\r\n{}",
        Err(HttpFault::Coding),
    ),
    (
        b"POST /satp HTTP/1.1\r\nHost: a\r\nExpect: a\r\n\r\n{}",
        Err(HttpFault::Expect),
    ),
    (
        b"POST /satp HTTP/1.1\r\nHost: a\r\nContent-Length: 3\r\n\r\n{}",
        Ok(0),
    ),
];

/// An answer as another program writes it.
pub const ANSWER: &[u8] = b"HTTP/1.1 200 OK\r\nContent-Length: 2\r\n\r\n{}";

pub const ANSWERS: [Row; 23] = [
    (ANSWER, Ok(1)),
    (b"HTTP/1.1 200\r\nContent-Length: 2\r\n\r\n{}", Ok(1)),
    (
        b"HTTP/1.1 200 OK\r\nContent-Length: 2\r\n\r\n{}HTTP/1.1 409 Conflict\r\nContent-Length: 2\r\n\r\n{}",
        Ok(2),
    ),
    (
        b"HTTP/1.0 200 OK\r\nContent-Length: 2\r\n\r\n{}",
        Err(HttpFault::Version),
    ),
    (
        b"HTTP/2 200 OK\r\nContent-Length: 2\r\n\r\n{}",
        Err(HttpFault::Head),
    ),
    (
        b"ICY 200 OK\r\nContent-Length: 2\r\n\r\n{}",
        Err(HttpFault::Head),
    ),
    (
        b"HTTP/1.1 20 OK\r\nContent-Length: 2\r\n\r\n{}",
        Err(HttpFault::Head),
    ),
    (
        b"HTTP/1.1 2000 OK\r\nContent-Length: 2\r\n\r\n{}",
        Err(HttpFault::Head),
    ),
    (
        b"HTTP/1.1 2x0 OK\r\nContent-Length: 2\r\n\r\n{}",
        Err(HttpFault::Head),
    ),
    (
        b"HTTP/1.1 200 OK\r\nServer : a\r\nContent-Length: 2\r\n\r\n{}",
        Err(HttpFault::Head),
    ),
    (b"HTTP/1.1 204 No Content\r\n\r\n", Ok(1)),
    (
        b"HTTP/1.1 204 No Content\r\nContent-Length: 2\r\n\r\nHTTP/1.1 200 OK\r\nContent-Length: 2\r\n\r\n{}",
        Ok(2),
    ),
    (
        b"HTTP/1.1 100 Continue\r\n\r\nHTTP/1.1 200 OK\r\nContent-Length: 2\r\n\r\n{}",
        Ok(1),
    ),
    (b"HTTP/1.1 100 Continue\r\n\r\n", Ok(0)),
    (
        b"HTTP/1.1 100 Continue\r\nTransfer-Encoding: chunked\r\n\r\n",
        Err(HttpFault::Chunked),
    ),
    (
        b"HTTP/1.1 101 Switching Protocols\r\n\r\n",
        Err(HttpFault::LengthMissing),
    ),
    (
        b"HTTP/1.1 304 Not Modified\r\n\r\n",
        Err(HttpFault::LengthMissing),
    ),
    (b"HTTP/1.1 200 OK\r\n\r\n", Err(HttpFault::LengthMissing)),
    (
        b"HTTP/1.1 200 OK\r\nTransfer-Encoding: chunked\r\nContent-Length: 2\r\n\r\n{}",
        Err(HttpFault::Chunked),
    ),
    (
        b"HTTP/1.1 200 OK\r\nContent-Encoding: br\r\nContent-Length: 2\r\n\r\n{}",
        Err(HttpFault::Coding),
    ),
    (
        b"HTTP/1.1 200 OK\r\nContent-Length: 3\r\nContent-Length: 2\r\n\r\n{}",
        Err(HttpFault::LengthBad),
    ),
    (
        b"HTTP/1.1 200 OK\r\nContent-Length: -1\r\n\r\n{}",
        Err(HttpFault::LengthBad),
    ),
    (
        b"HTTP/1.1 200 OK\r\nContent-Length: 8193\r\n\r\n{}",
        Err(HttpFault::BodyLong { length: 8193 }),
    ),
];
