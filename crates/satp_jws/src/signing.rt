ghost use Rattle.std.specs.Prelude.{◌≡◌, IfOk};
ghost use Rattle.satp_base.specs.Signatures.{jws, own_header};

use crate::encoding::append_encoded;
use crate::hmac::hmac_sha256;
use crate::key::Key;
use satp_base::{Memory, Text};
use std::alloc::Global;

/// The header of each text that is signed here.
const HEADER: &[u8; 15] = b"{\"alg\":\"HS256\"}";

/// The compact JWS (RFC 7515, section 3.1) of a payload under a key, with the header `{"alg":"HS256"}`.
pub fn sign(alloc: Global, key: &Key, payload: &[u8]) -> Result<Text, Memory>
    ensures { IfOk result (λ text. text ≡ jws key.now own_header payload.now) }
{
    let mut text = Text::copy(alloc, b"")?;
    append_encoded(alloc, &mut text, HEADER)?;
    text.append(b".")?;
    append_encoded(alloc, &mut text, payload)?;
    let signature = hmac_sha256(key.bytes(), text.bytes());
    text.append(b".")?;
    append_encoded(alloc, &mut text, &signature)?;
    Ok(text)
}
