ghost use Rattle.std.specs.Prelude.{◌≡◌, ◌<◌, ◌^◌, false};
ghost use Rattle.satp_outcome.specs.Outside.{sink, source};
ghost use Rattle.satp_outcome.specs.Streams.{Concluded, ReadRule, TextRule};
ghost use Rattle.satp_outcome.specs.Texts.{text_form, without_newline};

use crate::outcome::Outcome;
use crate::reply::Reply;
use crate::saying::say;
use satp_base::{Memory, Sink, SinkFault, Source, Text};
use std::alloc::Global;

/// The most bytes that are read at once.
const CHUNK: usize = 1024;

/// The longest canonical text, and the longest JWS of one that a command reads.
const LONGEST_TEXT: usize = 8192;

/// The longest input of a command that reads a text: the text and a newline.
pub const LONGEST_INPUT: usize = 8193;

/// Reads the input to its end, or to the first byte past the limit.
pub fn read_to<I: Source>(alloc: Global, input: &mut I, most: usize) -> Result<Text, Outcome>
    requires most { most < 2 ^ 60 }
    requires over { I.is_over input.old ≡ false }
    ensures { ReadRule most (source I.faults I.left I.is_over input.old) (source I.faults I.left I.is_over input.new) result }
{
    let Ok(mut text) = Text::copy(alloc, b"") else {
        return Err(Outcome::Memory);
    };
    let mut chunk = [0; CHUNK];
    while text.bytes().len() <= most {
        let room = (most + 1 - text.bytes().len()).min(CHUNK);
        let Ok(more) = input.read(&mut chunk[..room]) else {
            return Err(Outcome::InputFailed);
        };
        if more == 0 {
            return Ok(text);
        }
        let Ok(()) = text.append(&chunk[..more]) else {
            return Err(Outcome::Memory);
        };
    }
    Ok(text)
}

/// The text on an input: its bytes less one final newline. None where it is longer than a command reads.
pub fn text_on(input: &[u8]) -> Option<&[u8]>
    ensures { TextRule text_form input.now result }
{
    let text = without_newline(input);
    if text.len() > LONGEST_TEXT {
        None
    } else {
        Some(text)
    }
}

/// The bytes less one final newline.
fn without_newline(bytes: &[u8]) -> &[u8]
    ensures { result.now ≡ without_newline bytes.now }
{
    if !bytes.is_empty() && bytes[bytes.len() - 1] == b'\n' {
        &bytes[..bytes.len() - 1]
    } else {
        bytes
    }
}

/// Ends a command that made this reply of its input.
pub fn conclude<K: Sink>(out: &mut K, reply: Result<Reply, Memory>) -> Outcome
    requires { K.has_failed out.old ≡ false }
    ensures { Concluded reply (sink K.faults K.taken K.has_failed out.old) (sink K.faults K.taken K.has_failed out.new) result }
{
    match reply {
        Ok(Reply::Lines(lines)) => match say(out, lines.bytes()) {
            Ok(()) => Outcome::Done,
            Err(SinkFault) => Outcome::OutputFailed,
        },
        Ok(Reply::Refuses(end)) => Outcome::Input(end),
        Err(Memory) => Outcome::Memory,
    }
}
