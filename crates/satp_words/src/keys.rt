ghost use Rattle.std.specs.Prelude.{◌≡◌, ◌≢◌, ℕ, List, IfOk, Err};
ghost use Rattle.satp_words.specs.Commands.{IsKey};

use crate::command::WordsFault;
use base64::DecodeAllocError;
use base64::engine::general_purpose::URL_SAFE_NO_PAD;
use satp_base::Text;
use std::alloc::Global;

fn fault(error: &DecodeAllocError) -> WordsFault
    ensures { result ≡ WordsFault.Refused → error.now ≢ DecodeAllocError.OutOfMemory }
{
    match error {
        DecodeAllocError::OutOfMemory => WordsFault::Memory,
        _ => WordsFault::Refused,
    }
}

/// The key that a text names.
pub(crate) fn key(alloc: Global, text: &str) -> Result<Text, WordsFault>
    ensures ok { IfOk result (λ key. IsKey text.now key) }
    ensures refused { result ≡ Err WordsFault.Refused → (key : List ℕ) → ¬ IsKey text.now key }
{
    let bytes = match URL_SAFE_NO_PAD.decode(alloc, text.as_bytes()) {
        Ok(bytes) => bytes,
        Err(error) => return Err(fault(&error)),
    };
    if bytes.len() < 32 || bytes.len() > 64 {
        return Err(WordsFault::Refused);
    }
    Ok(Text::copy(alloc, bytes.as_slice())?)
}
