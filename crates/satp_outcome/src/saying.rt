// What is written on a sink, piece by piece, without taking memory.
ghost use Rattle.std.specs.Prelude.{◌≡◌, ◌++◌, false, decimal};
ghost use Rattle.satp_base.specs.Values.{session_text};
ghost use Rattle.satp_outcome.specs.Outside.{Says, sink};
ghost use Rattle.satp_phrases.specs.Phrases.{detail_text, phrase_text, words_of};

use itoa::Buffer;
use satp_base::{SessionId, Sink, SinkFault};
use satp_phrases::{Detail, Phrase};

/// Writes all the bytes, piece by piece, up to the first write that fails.
pub fn say<K: Sink>(out: &mut K, bytes: &[u8]) -> Result<(), SinkFault>
    requires { K.has_failed out.old ≡ false }
    ensures { Says bytes.now (sink K.faults K.taken K.has_failed out.old) (sink K.faults K.taken K.has_failed out.new) result }
{
    let mut done = 0;
    while done < bytes.len() {
        let Ok(more) = out.write(&bytes[done..]) else {
            return Err(SinkFault);
        };
        done += more;
    }
    Ok(())
}

/// Writes two texts.
pub fn say_both<K: Sink>(out: &mut K, first: &[u8], second: &[u8]) -> Result<(), SinkFault>
    requires { K.has_failed out.old ≡ false }
    ensures { Says (first.now ++ second.now) (sink K.faults K.taken K.has_failed out.old) (sink K.faults K.taken K.has_failed out.new) result }
{
    match say(out, first) {
        Ok(()) => say(out, second),
        Err(fault) => Err(fault),
    }
}

/// Writes three texts.
pub fn say_three<K: Sink>(
    out: &mut K,
    first: &[u8],
    second: &[u8],
    third: &[u8],
) -> Result<(), SinkFault>
    requires { K.has_failed out.old ≡ false }
    ensures { Says (first.now ++ (second.now ++ third.now)) (sink K.faults K.taken K.has_failed out.old) (sink K.faults K.taken K.has_failed out.new) result }
{
    match say(out, first) {
        Ok(()) => say_both(out, second, third),
        Err(fault) => Err(fault),
    }
}

/// Writes a number between two texts.
pub fn say_numbered<K: Sink>(
    out: &mut K,
    before: &[u8],
    number: u64,
    after: &[u8],
) -> Result<(), SinkFault>
    requires { K.has_failed out.old ≡ false }
    ensures { Says (before.now ++ (decimal number ++ after.now)) (sink K.faults K.taken K.has_failed out.old) (sink K.faults K.taken K.has_failed out.new) result }
{
    let mut digits = Buffer::new();
    say_three(out, before, digits.format(number).as_bytes(), after)
}

/// Writes the text of a session between two texts.
pub fn say_session<K: Sink>(
    out: &mut K,
    before: &[u8],
    session: SessionId,
    after: &[u8],
) -> Result<(), SinkFault>
    requires { K.has_failed out.old ≡ false }
    ensures { Says (before.now ++ (session_text session ++ after.now)) (sink K.faults K.taken K.has_failed out.old) (sink K.faults K.taken K.has_failed out.new) result }
{
    match say_both(out, before, session.gateway.bytes()) {
        Ok(()) => say_numbered(out, b".", session.number as u64, after),
        Err(fault) => Err(fault),
    }
}

/// Writes the words of a refusal, and what they speak of, between two texts.
pub fn say_phrase<K: Sink>(
    out: &mut K,
    before: &[u8],
    phrase: Phrase,
    after: &[u8],
) -> Result<(), SinkFault>
    requires { K.has_failed out.old ≡ false }
    ensures { Says (before.now ++ (phrase_text (words_of phrase) ++ after.now)) (sink K.faults K.taken K.has_failed out.old) (sink K.faults K.taken K.has_failed out.new) result }
{
    match say_both(out, before, phrase.text) {
        Ok(()) => say_detail(out, phrase.detail, after),
        Err(fault) => Err(fault),
    }
}

/// Writes what the words of a refusal speak of, and a text.
fn say_detail<K: Sink>(out: &mut K, detail: Detail, after: &[u8]) -> Result<(), SinkFault>
    requires { K.has_failed out.old ≡ false }
    ensures { Says (detail_text detail ++ after.now) (sink K.faults K.taken K.has_failed out.old) (sink K.faults K.taken K.has_failed out.new) result }
{
    match detail {
        Detail::Nothing => say(out, after),
        Detail::Number { number } => say_numbered(out, b"", number, after),
        Detail::Member { member } => say_both(out, member.text().as_bytes(), after),
        Detail::Session { session } => say_session(out, b"", session, after),
    }
}
