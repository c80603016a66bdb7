// The head of an answer.
ghost use Rattle.std.specs.Prelude.{◌≡◌, ◌≤◌, MatchResult};
ghost use Rattle.satp_http.specs.Found.{FindsAnswer, FramesAnswer, IsAnswerFault, answer_parts_read};
ghost use Rattle.satp_http.specs.Table.{is_interim, is_bodiless};

use crate::head::{Found, LONGEST, MOST_LINES, has_many_lines, window};
use crate::{HttpFault, lines};
use httparse::{EMPTY_HEADER, Error, Header, Response, Status};

/// The most interim answers in a row.
const MOST_INTERIM: u8 = 16;

/// What a head says of itself and of its body.
#[derive(Clone, Copy)]
pub(crate) struct AnswerFraming {
    pub code: u16,
    pub length: usize,
}

/// Whether a final answer follows one of this code (RFC 9110, section 15.2.1).
pub(crate) fn is_interim(code: u16) -> bool
    ensures { result ≡ is_interim code }
{
    code == 100
}

/// Whether an answer of this code has no body, whatever its lines say.
fn is_bodiless(code: u16) -> bool
    ensures { result ≡ is_bodiless code }
{
    code == 100 || code == 204
}

/// What a head says behind so many interim answers, or its first fault.
fn framing_of(
    interim: u8,
    code: u16,
    minor: u8,
    headers: &[Header<'_>],
) -> Result<AnswerFraming, HttpFault>
    ensures { MatchResult result
        (FramesAnswer interim (answer_parts_read code minor headers.now))
        (IsAnswerFault interim (answer_parts_read code minor headers.now)) }
{
    if minor != 1 {
        return Err(HttpFault::Version);
    }
    if is_interim(code) && interim >= MOST_INTERIM {
        return Err(HttpFault::Interim);
    }
    if lines::count(headers, b"transfer-encoding") > 0 {
        return Err(HttpFault::Chunked);
    }
    if lines::has_other(headers, b"content-encoding", b"identity") {
        return Err(HttpFault::Coding);
    }
    if is_bodiless(code) {
        return Ok(AnswerFraming { code, length: 0 });
    }
    if lines::count(headers, b"content-length") == 0 {
        return Err(HttpFault::LengthMissing);
    }
    let Some(length) = lines::agreed(headers) else {
        return Err(HttpFault::LengthBad);
    };
    if length > LONGEST as u64 {
        return Err(HttpFault::BodyLong { length });
    }
    Ok(AnswerFraming {
        code,
        length: length as usize,
    })
}

/// What stands at the front of the bytes, behind so many interim answers.
pub(crate) fn find_answer(held: &[u8], interim: u8) -> Found<AnswerFraming>
    ensures { FindsAnswer interim held.now result }
{
    let window = window(held);
    let mut headers = [EMPTY_HEADER; MOST_LINES];
    let mut response = Response::new(&mut headers);
    match response.parse(window) {
        Ok(Status::Complete(start)) => {
            // The parser says nowhere that a whole head has no more lines than it was given room for.
            if response.headers.len() > MOST_LINES {
                return Found::Fault(HttpFault::ManyHeaders);
            }
            match framing_of(
                interim,
                response.code.unwrap(),
                response.version.unwrap(),
                response.headers,
            ) {
                Ok(framing) => Found::Head(start, framing),
                Err(fault) => Found::Fault(fault),
            }
        }
        Ok(Status::Partial) => {
            if has_many_lines(window) {
                return Found::Fault(HttpFault::ManyHeaders);
            }
            if held.len() >= LONGEST {
                return Found::Fault(HttpFault::HeadLong);
            }
            Found::More
        }
        Err(Error::TooManyHeaders) => Found::Fault(HttpFault::ManyHeaders),
        Err(_) => Found::Fault(HttpFault::Head),
    }
}
