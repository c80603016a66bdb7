ghost use Rattle.std.specs.Prelude.{◌≡◌, ◌≢◌, ℕ, Some, None, IfOk, MatchResult};
ghost use Rattle.std.specs.Str.{bytes_eq};
ghost use Rattle.satp_base.specs.Signatures.{own_header};
ghost use Rattle.satp_base.specs.declared.message.Message.{Message};
ghost use Rattle.satp_sides.specs.Calls.{IsOwn};
ghost use Rattle.satp_log.specs.Hearing.{reading_fault};

use crate::fault::Unheard;
use satp_base::{Memory, Text};
use satp_canon::{CanonFault, read};
use satp_chain::Signed;
use satp_jws::{JwsFault, Key, verify};
use std::alloc::Global;

/// The header of every signed text of a gateway.
const OWN_HEADER: &[u8; 15] = b"{\"alg\":\"HS256\"}";

/// The message whose own text under the key this is, with the text: a compact JWS (RFC 7515, section 3.1) with HS256, the gateways' own header, and a canonical text as its payload.
///
/// Each fault comes exactly where it is the first that holds. `Memory` may come in the place of each answer.
pub fn hear(alloc: Global, key: &Key, text: &[u8]) -> Result<Signed, Unheard>
    ensures own { IfOk result (λ s. IsOwn key.now text.now s.message × (s.text ≡ text.now)) }
    ensures first { MatchResult result (λ _. reading_fault key.now text.now ≡ None) (λ f. f ≢ Unheard.Memory → reading_fault key.now text.now ≡ Some f) }
    // the own text of a message is heard as that message
    ensures complete { (m : Message) → IsOwn key.now text.now m → MatchResult result (λ s. s.message ≡ m) (λ f. f ≡ Unheard.Memory) }
{
    let verified = match verify(alloc, key, text) {
        Ok(verified) => verified,
        Err(fault) => return Err(unverified(fault)),
    };
    if !is_own_header(verified.header.bytes()) {
        return Err(Unheard::Header);
    }
    let message = match read(alloc, verified.payload.bytes()) {
        Ok(message) => message,
        Err(fault) => return Err(unread(fault)),
    };
    match Text::copy(alloc, text) {
        Ok(text) => Ok(Signed { message, text }),
        Err(Memory) => Err(Unheard::Memory),
    }
}

fn is_own_header(header: &[u8]) -> bool
    ensures { result ≡ bytes_eq header.now own_header }
{
    header == OWN_HEADER.as_slice()
}

fn unverified(fault: JwsFault) -> Unheard
    ensures memory { fault ≡ JwsFault.Memory → result ≡ Unheard.Memory }
    ensures other { fault ≢ JwsFault.Memory → result ≡ Unheard.Jws fault }
{
    match fault {
        JwsFault::Memory => Unheard::Memory,
        fault => Unheard::Jws { fault },
    }
}

fn unread(fault: CanonFault) -> Unheard
    ensures memory { fault ≡ CanonFault.Memory → result ≡ Unheard.Memory }
    ensures other { fault ≢ CanonFault.Memory → result ≡ Unheard.Body fault }
{
    match fault {
        CanonFault::Memory => Unheard::Memory,
        fault => Unheard::Body { fault },
    }
}
