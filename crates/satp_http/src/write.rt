// The bytes of a request and of an answer.
ghost use Rattle.std.specs.Prelude.{◌≡◌, ◌++◌, [], IsTrue, IfOk, OnOk};
ghost use Rattle.httparse.specs.Ascii.{crlf_bytes};
ghost use Rattle.satp_base.specs.Values.{address_text};
ghost use Rattle.satp_http.specs.Written.{head_line, content_lines, allow_lines, kind_lines, close_lines, request_text, response_text, phrase, is_answer_code, interim_text};

use http::StatusCode;
use itoa::Buffer;
use satp_base::{Address, Memory, Text};
use std::alloc::Global;

/// Adds a line of a head.
fn add_line(text: &mut Text, name: &[u8], value: &[u8]) -> Result<(), Memory>
    ensures { OnOk result (text.new ≡ text.old ++ head_line name.now value.now) }
{
    text.append(name)?;
    text.append(value)?;
    text.append(b"\r\n")
}

/// Adds the lines of the type and the length.
fn add_content(text: &mut Text, kind: &[u8], size: usize) -> Result<(), Memory>
    ensures { OnOk result (text.new ≡ text.old ++ content_lines kind.now size) }
{
    add_line(text, b"Content-Type: ", kind)?;
    let mut digits = Buffer::new();
    add_line(text, b"Content-Length: ", digits.format(size).as_bytes())
}

/// A 405 says which method is allowed (RFC 9110, section 15.5.6).
fn add_allow(text: &mut Text, code: u16) -> Result<(), Memory>
    ensures { OnOk result (text.new ≡ text.old ++ allow_lines code) }
{
    if code == 405 {
        return add_line(text, b"Allow: ", b"POST");
    }
    Ok(())
}

/// The lines of the type and the length, which a 204 doesn't have (RFC 9110, section 8.6).
fn add_kind(text: &mut Text, code: u16, size: usize) -> Result<(), Memory>
    ensures { OnOk result (text.new ≡ text.old ++ kind_lines code size) }
{
    if code == 204 {
        return Ok(());
    }
    if code == 200 {
        return add_content(text, b"application/jose", size);
    }
    add_content(text, b"text/plain", size)
}

/// Says where this side closes the connection (RFC 9112, section 9.6).
fn add_close(text: &mut Text, close: bool) -> Result<(), Memory>
    ensures { OnOk result (text.new ≡ text.old ++ close_lines close) }
{
    if close {
        return add_line(text, b"Connection: ", b"close");
    }
    Ok(())
}

/// The request that posts a body to `/satp` of the host (RFC 9112, section 3), as `application/jose`.
///
/// It is read as that one request, whatever follows it on the connection, where the body has at most
/// 8,192 bytes.
pub fn write_request(alloc: Global, at: &Address, body: &[u8]) -> Result<Text, Memory>
    ensures { IfOk result (λ text. text ≡ request_text (address_text at.now) body.now) }
{
    let mut text = Text::copy(alloc, b"")?;
    add_line(&mut text, b"POST /satp ", b"HTTP/1.1")?;
    add_line(&mut text, b"Host: ", at.bytes())?;
    add_content(&mut text, b"application/jose", body.len())?;
    text.append(b"\r\n")?;
    text.append(body)?;
    Ok(text)
}

/// The phrase of a code that is answered.
fn phrase(code: u16) -> &'static str
    requires { IsTrue (is_answer_code code) }
    ensures { result.now ≡ phrase code }
{
    match StatusCode::from_u16(code) {
        Ok(status) => status.canonical_reason().unwrap_or(""),
        Err(_) => "",
    }
}

/// The answer of a code (RFC 9112, section 4): 200 with a body of `application/jose`, 204 without type and
/// body, or one of the codes of refusals and faults with a body of `text/plain`. It says whether this side
/// closes the connection behind it.
///
/// It is read as that one answer, whatever follows it on the connection, where the body has at most
/// 8,192 bytes.
pub fn write_response(alloc: Global, code: u16, body: &[u8], close: bool) -> Result<Text, Memory>
    requires code { IsTrue (is_answer_code code) }
    requires body { code ≡ 204 → body.now ≡ [] }
    ensures { IfOk result (λ text. text ≡ response_text code body.now close) }
{
    let mut text = Text::copy(alloc, b"HTTP/1.1 ")?;
    let mut digits = Buffer::new();
    text.append(digits.format(code).as_bytes())?;
    add_line(&mut text, b" ", phrase(code).as_bytes())?;
    add_allow(&mut text, code)?;
    add_kind(&mut text, code, body.len())?;
    add_close(&mut text, close)?;
    text.append(b"\r\n")?;
    text.append(body)?;
    Ok(text)
}

/// The interim answer (RFC 9110, section 15.2.1), which a client that expects it waits for before it sends the body.
pub fn interim_text() -> &'static [u8]
    ensures { result.now ≡ interim_text }
{
    b"HTTP/1.1 100 Continue\r\n\r\n"
}
