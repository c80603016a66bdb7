use crate::ends::{Side, byte_for_byte, cut};
use crate::http_rows::{ANSWER, ANSWERS, REQUESTS, Row, WORKED};
use satp_base::{Address, Memory, Text};
use satp_http::{HttpFault, Requests, Responses, Taken, write_request, write_response};
use std::alloc::Global;

fn is_as_wanted(alloc: Global, side: Side, row: &Row) -> bool {
    let (bytes, wanted) = row;
    for at in 0..bytes.len() {
        if cut(alloc, side, bytes, at) != *wanted {
            return false;
        }
    }
    byte_for_byte(alloc, side, bytes) == *wanted
}

/// The first row that gives something else, whole, cut after one of its bytes, or byte for byte.
fn first_other(alloc: Global, side: Side, rows: &[Row]) -> Option<usize> {
    for (index, row) in rows.iter().enumerate() {
        if !is_as_wanted(alloc, side, row) {
            return Some(index);
        }
    }
    None
}

#[test]
fn heads_in_each_cutting(rt: HostRuntime) {
    let alloc = rt.alloc();
    let others = (
        first_other(alloc, Side::Server, &REQUESTS),
        first_other(alloc, Side::Client, &ANSWERS),
    );
    assert_eq!(rt; others, (None, None));
}

/// What one piece more gives.
#[derive(Clone, Copy, Debug, PartialEq, Eq)]
enum Step {
    Nothing,
    Continue,
    /// What came whole, with the body `{}` or another one.
    Whole { is_worked: bool, close: bool },
    Fault(HttpFault),
}

fn ask(alloc: Global, requests: &mut Requests, piece: &[u8]) -> Step {
    let _ = requests.feed(piece);
    match requests.take(alloc) {
        Ok(Taken::More) => Step::Nothing,
        Ok(Taken::Continue) => Step::Continue,
        Ok(Taken::Request(asked)) => Step::Whole {
            is_worked: asked.body.bytes() == b"{}".as_slice(),
            close: asked.close,
        },
        Err(fault) => Step::Fault(fault),
    }
}

fn hear(alloc: Global, responses: &mut Responses, piece: &[u8]) -> Step {
    let _ = responses.feed(piece);
    match responses.take(alloc) {
        Ok(None) => Step::Nothing,
        Ok(Some(answered)) => Step::Whole {
            is_worked: answered.code == 200 && answered.body.bytes() == b"{}".as_slice(),
            close: false,
        },
        Err(fault) => Step::Fault(fault),
    }
}

/// What the worked request gives in two pieces.
fn ask_worked(alloc: Global, at: usize) -> [Step; 2] {
    let at = at.min(WORKED.len());
    match Requests::new(alloc) {
        Ok(mut requests) => [
            ask(alloc, &mut requests, &WORKED[..at]),
            ask(alloc, &mut requests, &WORKED[at..]),
        ],
        Err(_) => [Step::Fault(HttpFault::Memory); 2],
    }
}

/// What the answer gives in two pieces.
fn hear_answer(alloc: Global, at: usize) -> [Step; 2] {
    let at = at.min(ANSWER.len());
    match Responses::new(alloc) {
        Ok(mut responses) => [
            hear(alloc, &mut responses, &ANSWER[..at]),
            hear(alloc, &mut responses, &ANSWER[at..]),
        ],
        Err(_) => [Step::Fault(HttpFault::Memory); 2],
    }
}

/// Nothing comes with the first piece, and the whole with the second.
const IN_TWO: [Step; 2] = [
    Step::Nothing,
    Step::Whole {
        is_worked: true,
        close: false,
    },
];

/// The first cut of the request, and of the answer, that gives something else.
fn first_other_cut(alloc: Global) -> (Option<usize>, Option<usize>) {
    (
        (0..WORKED.len()).find(|at| ask_worked(alloc, *at) != IN_TWO),
        (0..ANSWER.len()).find(|at| hear_answer(alloc, *at) != IN_TWO),
    )
}

#[test]
fn worked_texts_at_each_cut(rt: HostRuntime) {
    assert_eq!(rt; first_other_cut(rt.alloc()), (None, None));
}

/// So many copies of a text with a repeated piece, what they give, and where they are cut: nowhere stands for byte for
/// byte.
#[derive(Clone, Copy)]
struct Grown {
    side: Side,
    first: &'static [u8],
    piece: &'static [u8],
    times: usize,
    last: &'static [u8],
    copies: usize,
    cut: Option<usize>,
    wanted: Result<usize, HttpFault>,
}

/// A head of 55 bytes and the filling.
fn filled(times: usize, cut: usize, wanted: Result<usize, HttpFault>) -> Grown {
    Grown {
        side: Side::Server,
        first: b"POST /satp HTTP/1.1\r\nHost: a\r\nContent-Length: 0\r\nA:",
        piece: b"a",
        times,
        last: b"\r\n\r\n",
        copies: 1,
        cut: Some(cut),
        wanted,
    }
}

/// A head of two lines and so many more.
fn lined(times: usize, wanted: Result<usize, HttpFault>) -> Grown {
    Grown {
        side: Side::Server,
        first: b"POST /satp HTTP/1.1\r\nHost: a\r\nContent-Length: 0\r\n",
        piece: b"a: b\r\n",
        times,
        last: b"\r\n",
        copies: 1,
        cut: None,
        wanted,
    }
}

/// An answer after so many interim ones.
fn interim(times: usize, copies: usize, cut: usize, wanted: Result<usize, HttpFault>) -> Grown {
    Grown {
        side: Side::Client,
        first: b"",
        piece: b"HTTP/1.1 100 Continue\r\n\r\n",
        times,
        last: b"HTTP/1.1 204 No Content\r\n\r\n",
        copies,
        cut: Some(cut),
        wanted,
    }
}

fn grown_rows() -> [Grown; 12] {
    [
        filled(8136, 8192, Ok(1)),
        filled(8136, 100, Ok(1)),
        filled(8137, 8192, Ok(1)),
        filled(8137, 100, Ok(1)),
        filled(8138, 8192, Err(HttpFault::HeadLong)),
        filled(8138, 100, Err(HttpFault::HeadLong)),
        lined(62, Ok(1)),
        lined(63, Err(HttpFault::ManyHeaders)),
        Grown {
            side: Side::Server,
            first: b"POST /satp HTTP/1.1\r\nHost: a\r\nContent-Length: 8192\r\n\r\n",
            piece: b"a",
            times: 8192,
            last: b"",
            copies: 1,
            cut: Some(4000),
            wanted: Ok(1),
        },
        interim(16, 1, 40, Ok(1)),
        interim(16, 2, 500, Ok(2)),
        interim(17, 1, 40, Err(HttpFault::Interim)),
    ]
}

fn add(text: &mut Text, piece: &[u8], times: usize) {
    for _ in 0..times {
        let _ = text.append(piece);
    }
}

fn grow(text: &mut Text, row: &Grown) {
    for _ in 0..row.copies {
        add(text, row.first, 1);
        add(text, row.piece, row.times);
        add(text, row.last, 1);
    }
}

fn in_pieces(alloc: Global, row: &Grown, bytes: &[u8]) -> Result<usize, HttpFault> {
    match row.cut {
        Some(at) => cut(alloc, row.side, bytes, at),
        None => byte_for_byte(alloc, row.side, bytes),
    }
}

fn answer_of(alloc: Global, row: &Grown) -> Result<usize, HttpFault> {
    match Text::copy(alloc, b"") {
        Ok(mut text) => {
            grow(&mut text, row);
            in_pieces(alloc, row, text.bytes())
        }
        Err(Memory) => Err(HttpFault::Memory),
    }
}

#[test]
fn limits(rt: HostRuntime) {
    let alloc = rt.alloc();
    let other = grown_rows()
        .iter()
        .position(|row| answer_of(alloc, row) != row.wanted);
    assert_eq!(rt; other, None);
}

/// What the pieces of a request give that waits for its interim answer, how much is then held, and what a fault leaves.
fn waiting(alloc: Global, requests: &mut Requests) -> ([Step; 3], usize, [Step; 2]) {
    let steps = [
        ask(
            alloc,
            requests,
            b"POST /satp HTTP/1.1\r\nHost: a\r\nExpect: 100-continue\r\nConnection: a, Close\r\nContent-Length: 2\r\n\r\n{",
        ),
        ask(alloc, requests, b""),
        ask(alloc, requests, b"}GET / HTTP/1.1\r\n\r\n"),
    ];
    let held = requests.held();
    let faults = [
        ask(alloc, requests, b""),
        ask(alloc, requests, b"POST /satp HTTP/1.1\r\n"),
    ];
    (steps, held, faults)
}

fn continues_and_closes(alloc: Global) -> bool {
    let steps = [
        Step::Continue,
        Step::Nothing,
        Step::Whole {
            is_worked: true,
            close: true,
        },
    ];
    let faults = [Step::Fault(HttpFault::Method); 2];
    match Requests::new(alloc) {
        Ok(mut requests) => waiting(alloc, &mut requests) == (steps, 18, faults),
        Err(_) => false,
    }
}

#[test]
fn continues_once_and_closes(rt: HostRuntime) {
    assert!(rt; continues_and_closes(rt.alloc()));
}

fn is_written(written: Result<Text, Memory>, wanted: &[u8]) -> bool {
    match written {
        Ok(text) => text.bytes() == wanted,
        Err(Memory) => false,
    }
}

fn is_request_written(alloc: Global) -> bool {
    match Address::read(b"127.0.0.1:7002") {
        Ok(at) => is_written(
            write_request(alloc, &at, b"{}"),
            b"POST /satp HTTP/1.1\r\nHost: 127.0.0.1:7002\r\nContent-Type: application/jose\r\nContent-Length: 2\r\n\r\n{}",
        ),
        Err(_) => false,
    }
}

/// Whether answers of these codes are written, in the order of the codes.
fn are_answers_written(alloc: Global) -> [bool; 4] {
    [
        is_written(
            write_response(alloc, 200, b"{}", false),
            b"HTTP/1.1 200 OK\r\nContent-Type: application/jose\r\nContent-Length: 2\r\n\r\n{}",
        ),
        is_written(
            write_response(alloc, 204, b"", true),
            b"HTTP/1.1 204 No Content\r\nConnection: close\r\n\r\n",
        ),
        is_written(
            write_response(alloc, 400, b"jws parts 1\n", false),
            b"HTTP/1.1 400 Bad Request\r\nContent-Type: text/plain\r\nContent-Length: 12\r\n\r\njws parts 1\n",
        ),
        is_written(
            write_response(alloc, 405, b"method\n", true),
            b"HTTP/1.1 405 Method Not Allowed\r\nAllow: POST\r\nContent-Type: text/plain\r\nContent-Length: 7\r\nConnection: close\r\n\r\nmethod\n",
        ),
    ]
}

#[test]
fn written(rt: HostRuntime) {
    let alloc = rt.alloc();
    let written = (is_request_written(alloc), are_answers_written(alloc));
    assert_eq!(rt; written, (true, [true; 4]));
}
