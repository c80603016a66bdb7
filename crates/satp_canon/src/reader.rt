//! Reads canonical texts.

ghost use Rattle.std.specs.Prelude.{◌≡◌, ◌≤◌, ◌⊎◌, ℕ, Some, None, Err, IfErr, IfOk, MatchResult, length, if◌then◌else◌};
ghost use Rattle.std.specs.Str.{bytes_eq};
ghost use Rattle.satp_base.specs.Canonical.{IsText, canonical};
ghost use Rattle.satp_base.specs.Forms.{IsMessage};
ghost use Rattle.satp_base.specs.declared.message.Message.{Message};
ghost use Rattle.satp_canon.specs.FirstFault.{common, first_fault, text_fault};
ghost use Rattle.satp_canon.specs.Reads.{DiffersAt};
ghost use Rattle.satp_canon.specs.declared.fault.CanonFault.TheVariants.{Memory};

use crate::fault::CanonFault;
use crate::messages::message_of;
use crate::writer::write;
use satp_base::Message;
use serde_json::Value;
use std::alloc::Global;

/// The longest text.
const LONGEST: usize = 8192;

/// The message whose canonical text this is, or the first fault of the text.
///
/// The text is read as JSON (RFC 8259), the members of its object are looked up, and the message that they make is
/// written again: only where that gives the same bytes is the text accepted.
pub fn read(alloc: Global, text: &[u8]) -> Result<Message, CanonFault>
    ensures found { IfOk result (λ m. IsMessage m × IsText m text.now × (length text.now ≤ 8192)) }
    ensures fault { MatchResult result (λ m. first_fault text.now ≡ None)
        (λ f. (f ≡ Memory) ⊎ (first_fault text.now ≡ Some f)) }
    ensures complete { (m : Message) → IsMessage m → IsText m text.now → length text.now ≤ 8192
        → MatchResult result (λ found. found ≡ m) (λ f. f ≡ Memory) }
    // want of memory hides no text that is too long
    ensures memory { result ≡ Err Memory → length text.now ≤ 8192 }
    // the text that it is compared with is that of the message in it
    ensures canonical { (at : ℕ) → result ≡ Err (CanonFault.NotCanonical at) → DiffersAt text.now at }
{
    if text.len() > LONGEST {
        return Err(CanonFault::Long { length: text.len() });
    }
    let value = match Value::from_slice(alloc, text) {
        Ok(value) => value,
        Err(error) if error.is_memory() => return Err(CanonFault::Memory),
        Err(_) => return Err(CanonFault::NotJson),
    };
    match message_of(alloc, &value) {
        Ok(message) => compared(alloc, message, text),
        Err(fault) => Err(fault),
    }
}

/// The message, where the text is its own.
fn compared(alloc: Global, message: Message, text: &[u8]) -> Result<Message, CanonFault>
    requires { IsMessage message }
    ensures same { IfOk result (λ m. (m ≡ message) × IsText m text.now) }
    ensures other { IfErr result (λ f. (f ≡ Memory) ⊎ (Some f ≡ text_fault text.now (canonical message))) }
{
    let Ok(written) = write(alloc, &message) else {
        return Err(CanonFault::Memory);
    };
    match difference(text, written.bytes()) {
        Some(at) => Err(CanonFault::NotCanonical { at }),
        None => Ok(message),
    }
}

/// Where two texts part, unless they are the same: the first place where they differ, or the end of the shorter.
fn difference(text: &[u8], other: &[u8]) -> Option<usize>
    ensures { result ≡ (if bytes_eq text.now other.now then None else Some (common text.now other.now)) }
{
    if text == other {
        None
    } else {
        Some(common(text, other))
    }
}

fn common(text: &[u8], other: &[u8]) -> usize
    ensures { result ≡ common text.now other.now }
{
    for (index, byte) in text.iter().enumerate() {
        if index >= other.len() || other[index] != *byte {
            return index;
        }
    }
    text.len()
}
