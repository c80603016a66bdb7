ghost use Rattle.std.specs.Prelude.{◌≡◌, ◌≢◌, ◌↔◌, ◌∷◌, ◌++◌, ℕ, List, None, Some, Err, IfOk, IsTrue, MatchResult, length};
ghost use Rattle.base64.specs.GeneralPurpose.{IsBytes};
ghost use Rattle.satp_base.specs.Signatures.{encoded, jws};
ghost use Rattle.satp_jws.specs.Faults.{decoded, header_fault, header_of, jws_fault, part_fault, parts_of, payload_of, three_fault};
ghost use Rattle.satp_jws.specs.Reading.{Reads};
ghost use Rattle.satp_jws.specs.declared.fault.JwsFault.TheVariants.{Memory};

use crate::encoding::{Undecoded, decode};
use crate::fault::JwsFault;
use crate::header::check_header;
use crate::hmac::hmac_sha256;
use crate::key::Key;
use crate::parts::{before_stop, behind_stop, part_count};
use satp_base::Text;
use std::alloc::Global;

/// What a text under the key holds.
#[derive(Drop)]
pub struct Verified {
    pub header: Text,
    pub payload: Text,
}

/// Reads a compact JWS under a key (RFC 7515, section 5.2). Members of the header other than `alg` and `crit` are passed
/// over.
pub fn verify(alloc: Global, key: &Key, text: &[u8]) -> Result<Verified, JwsFault>
    // each fault exactly where it is the first
    ensures first { MatchResult result
        (λ v. (jws_fault key.now text.now ≡ None)
        × (v.header ≡ header_of text.now) × (v.payload ≡ payload_of text.now))
        (λ fault. fault ≢ Memory → jws_fault key.now text.now ≡ Some fault) }
    // what is accepted is the compact JWS of what is answered
    ensures signed { IfOk result (λ v. (header_fault v.header ≡ None)
        × (text.now ≡ jws key.now v.header v.payload)) }
    // and every compact JWS with such a header is accepted
    ensures complete { (header payload : List ℕ) → IsBytes header → IsBytes payload
        → header_fault header ≡ None → text.now ≡ jws key.now header payload
        → MatchResult result
        (λ v. (v.header ≡ header) × (v.payload ≡ payload))
        (λ fault. fault ≡ Memory) }
    // want of memory hides no wrong number of parts
    ensures memory { result ≡ Err Memory → length (parts_of text.now) ≡ 3 }
{
    let count = part_count(text);
    if count != 3 {
        return Err(JwsFault::Parts { count });
    }
    let rest = behind_stop(text);
    let parts = Parts {
        header: before_stop(text),
        payload: before_stop(rest),
        signature: behind_stop(rest),
    };
    let signed = &text[..parts.header.len() + parts.payload.len() + 1];
    verify_parts(alloc, key, signed, parts)
}

/// The three parts of a text.
#[derive(Clone, Copy)]
struct Parts<'a> {
    header: &'a [u8],
    payload: &'a [u8],
    signature: &'a [u8],
}

fn verify_parts(alloc: Global, key: &Key, signed: &[u8], parts: Parts) -> Result<Verified, JwsFault>
    requires { signed.now ≡ parts.header.now ++ 46 ∷ parts.payload.now }
    ensures { MatchResult result
        (λ v. Reads key.now parts.entry.header.now parts.entry.payload.now parts.entry.signature.now v.header v.payload)
        (λ fault. fault ≢ Memory
        → three_fault key.now parts.entry.header.now parts.entry.payload.now parts.entry.signature.now ≡ Some fault) }
{
    let header = part(alloc, 1, parts.header)?;
    let payload = part(alloc, 2, parts.payload)?;
    let signature = part(alloc, 3, parts.signature)?;
    check_header(alloc, header.bytes())?;
    if !is_same(signature.bytes(), &hmac_sha256(key.bytes(), signed)) {
        return Err(JwsFault::Signature);
    }
    Ok(Verified { header, payload })
}

/// The bytes of the part with this number.
fn part(alloc: Global, number: u8, symbols: &[u8]) -> Result<Text, JwsFault>
    ensures { MatchResult result
        (λ bytes. (decoded symbols.now ≡ Some bytes) × (symbols.now ≡ encoded bytes))
        (λ fault. fault ≢ Memory → part_fault number symbols.now ≡ Some fault) }
{
    match decode(alloc, symbols) {
        Ok(bytes) => Ok(bytes),
        Err(Undecoded::NotBase64) => Err(JwsFault::NotBase64 { part: number }),
        Err(Undecoded::NoMemory) => Err(JwsFault::Memory),
    }
}

/// Whether two lists of bytes are the same. It looks at all of them.
fn is_same(bytes: &[u8], others: &[u8]) -> bool
    ensures { IsTrue result ↔ (bytes.now ≡ others.now) }
{
    if bytes.len() != others.len() {
        return false;
    }
    let mut same = true;
    for index in 0..bytes.len() {
        same &= bytes[index] == others[index];
    }
    same
}
