ghost use Rattle.std.specs.Prelude.{IfOk};
ghost use Rattle.satp_base.specs.Forms.{IsBody, IsPart};

use crate::base64url::keyed;
use crate::fault::DriverFault;
use satp_base::{Body, Kind, Message, Part, Text};
use satp_canon::{CanonFault, read};
use satp_chain::Chain;
use satp_jws::Key;
use std::alloc::Global;

/// The signed texts of a chain with the parts of these messages, for a line `<key> <text> <text> ..` of the canonical
/// texts of its messages, the first of them a proposal. Where a kind can't come next, the answer ends with `off`.
pub fn chain_line(alloc: Global, line: &str) -> Result<Text, DriverFault> {
    let (key, texts) = keyed(alloc, line)?;
    let first = message(alloc, texts.split(' ').next().ok_or(DriverFault::Line)?)?;
    let mut chain = Chain::new(alloc, first.session, first.receiver)?;
    let mut answer = Text::copy(alloc, b"")?;
    for text in texts.split(' ') {
        let part = part_of(&message(alloc, text)?)?;
        if !answer.bytes().is_empty() {
            answer.append(b" ")?;
        }
        if !add(alloc, &mut chain, &key, part, &mut answer)? {
            break;
        }
    }
    Ok(answer)
}

/// Composes the next message, says its text and pushes it; or says `off`, and answers that there is none.
fn add(
    alloc: Global,
    chain: &mut Chain,
    key: &Key,
    part: Part,
    answer: &mut Text,
) -> Result<bool, DriverFault>
    requires { IsPart part }
{
    if !chain.tale().extends(part.kind()) {
        answer.append(b"off")?;
        return Ok(false);
    }
    let signed = chain.compose(alloc, key, part)?;
    answer.append(signed.text.bytes())?;
    chain.push(signed);
    Ok(true)
}

fn message(alloc: Global, text: &str) -> Result<Message, DriverFault>
    ensures { IfOk result (λ message. IsBody message.body) }
{
    match read(alloc, text.as_bytes()) {
        Ok(message) => Ok(message),
        Err(CanonFault::Memory) => Err(DriverFault::Memory),
        Err(_) => Err(DriverFault::Line),
    }
}

fn part_of(message: &Message) -> Result<Part, DriverFault>
    requires { IsBody message.now.body }
    ensures { IfOk result IsPart }
{
    match message.body {
        Body::Chain { part, .. } => Ok(part),
        _ => Err(DriverFault::Line),
    }
}
