ghost use Rattle.std.specs.Prelude.{◌≡◌, false, IfOk};
ghost use Rattle.satp_app.specs.Check.{check_says, line, signed_says};
ghost use Rattle.satp_outcome.specs.Outside.{sink, source, streams};
ghost use Rattle.satp_outcome.specs.Streams.{StreamRule};
ghost use Rattle.satp_outcome.specs.Texts.{text_form};

use itoa::Buffer;
use satp_base::{Kind, Memory, Sink, Source, Text};
use satp_canon::{CanonFault, read};
use satp_jws::{JwsFault, Key, verify};
use satp_outcome::{InputEnd, LONGEST_INPUT, Outcome, Reply, conclude, read_to, text_on};
use std::alloc::Global;

/// Reads a canonical text and prints its kind and length.
pub(crate) fn check<I: Source, K: Sink>(alloc: Global, input: &mut I, out: &mut K) -> Outcome
    requires over { I.is_over input.old ≡ false }
    requires failed { K.has_failed out.old ≡ false }
    ensures { StreamRule text_form check_says
        (streams (source I.faults I.left I.is_over input.old) (sink K.faults K.taken K.has_failed out.old))
        (streams (source I.faults I.left I.is_over input.new) (sink K.faults K.taken K.has_failed out.new))
        result }
{
    match read_to(alloc, input, LONGEST_INPUT) {
        Ok(held) => match text_on(held.bytes()) {
            Some(text) => conclude(out, text_reply(alloc, text)),
            None => Outcome::Input(InputEnd::Long),
        },
        Err(outcome) => outcome,
    }
}

/// Reads a compact JWS of a canonical text under a key and prints the text's kind and the JWS' length.
pub(crate) fn check_signed<I: Source, K: Sink>(
    alloc: Global,
    key: &Key,
    input: &mut I,
    out: &mut K,
) -> Outcome
    requires over { I.is_over input.old ≡ false }
    requires failed { K.has_failed out.old ≡ false }
    ensures { StreamRule text_form (signed_says key.now)
        (streams (source I.faults I.left I.is_over input.old) (sink K.faults K.taken K.has_failed out.old))
        (streams (source I.faults I.left I.is_over input.new) (sink K.faults K.taken K.has_failed out.new))
        result }
{
    match read_to(alloc, input, LONGEST_INPUT) {
        Ok(held) => match text_on(held.bytes()) {
            Some(text) => conclude(out, signed_reply(alloc, key, text)),
            None => Outcome::Input(InputEnd::Long),
        },
        Err(outcome) => outcome,
    }
}

/// The reply to a text.
fn text_reply(alloc: Global, text: &[u8]) -> Result<Reply, Memory>
    ensures { IfOk result (check_says text.now) }
{
    let message = match read(alloc, text) {
        Ok(message) => message,
        Err(CanonFault::Memory) => return Err(Memory),
        Err(fault) => return Ok(Reply::Refuses(InputEnd::Text(fault))),
    };
    match text_line(alloc, b"text ", message.body.kind(), text.len()) {
        Ok(line) => Ok(Reply::Lines(line)),
        Err(Memory) => Err(Memory),
    }
}

/// The reply to a compact JWS.
fn signed_reply(alloc: Global, key: &Key, text: &[u8]) -> Result<Reply, Memory>
    ensures { IfOk result (signed_says key.now text.now) }
{
    let verified = match verify(alloc, key, text) {
        Ok(verified) => verified,
        Err(JwsFault::Memory) => return Err(Memory),
        Err(fault) => return Ok(Reply::Refuses(InputEnd::Signature(fault))),
    };
    let message = match read(alloc, verified.payload.bytes()) {
        Ok(message) => message,
        Err(CanonFault::Memory) => return Err(Memory),
        Err(fault) => return Ok(Reply::Refuses(InputEnd::Text(fault))),
    };
    match text_line(alloc, b"jws ", message.body.kind(), text.len()) {
        Ok(line) => Ok(Reply::Lines(line)),
        Err(Memory) => Err(Memory),
    }
}

/// The line on a text of a message of this kind, with so many bytes.
fn text_line(alloc: Global, form: &[u8], kind: Kind, length: usize) -> Result<Text, Memory>
    ensures { IfOk result (λ printed. printed ≡ line form.now kind length) }
{
    let mut buffer = Buffer::new();
    let mut line = Text::copy(alloc, form)?;
    line.append(kind.text().as_bytes())?;
    line.append(b" ")?;
    line.append(buffer.format(length).as_bytes())?;
    line.append(b" bytes\n")?;
    Ok(line)
}
