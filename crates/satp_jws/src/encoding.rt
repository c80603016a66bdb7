ghost use Rattle.std.specs.Prelude.{◌≡◌, ◌++◌, ℕ, List, Some, None, IfOk, MatchResult, OnOk};
ghost use Rattle.base64.specs.GeneralPurpose.{IsBytes};
ghost use Rattle.satp_base.specs.Signatures.{encoded};
ghost use Rattle.satp_jws.specs.Faults.{decoded};
ghost use Rattle.satp_jws.specs.declared.encoding.Undecoded.TheVariants.{NotBase64, NoMemory};

use base64::DecodeAllocError;
use base64::engine::general_purpose::URL_SAFE_NO_PAD;
use satp_base::{Memory, Text};
use std::alloc::Global;

/// Appends the base64url of the bytes, without padding (RFC 4648, section 5).
pub fn append_encoded(alloc: Global, text: &mut Text, bytes: &[u8]) -> Result<(), Memory>
    ensures ok { OnOk result (text.new ≡ text.old ++ encoded bytes.now) }
{
    let symbols = URL_SAFE_NO_PAD.encode(alloc, bytes)?;
    text.append(symbols.as_bytes())
}

/// Why a part gives no bytes.
#[derive(Clone, Copy, PartialEq, Eq)]
pub enum Undecoded {
    NotBase64,
    NoMemory,
}

/// The bytes whose base64url a part is.
pub fn decode(alloc: Global, part: &[u8]) -> Result<Text, Undecoded>
    ensures outcome { MatchResult result
        (λ bytes. decoded part.now ≡ Some bytes)
        (λ why. why ≡ NotBase64 → decoded part.now ≡ None) }
    ensures exact { IfOk result (λ bytes. part.now ≡ encoded bytes) }
{
    match URL_SAFE_NO_PAD.decode(alloc, part) {
        Ok(bytes) => match Text::copy(alloc, bytes.as_slice()) {
            Ok(text) => Ok(text),
            Err(Memory) => Err(Undecoded::NoMemory),
        },
        Err(DecodeAllocError::OutOfMemory) => Err(Undecoded::NoMemory),
        Err(DecodeAllocError::DecodeError(_)) => Err(Undecoded::NotBase64),
    }
}
