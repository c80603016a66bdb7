use crate::fault::DriverFault;
use base64::DecodeAllocError;
use base64::engine::general_purpose::URL_SAFE_NO_PAD;
use satp_base::Text;
use satp_jws::Key;
use std::alloc::Global;

/// The key that a line begins with, and what stands after the space.
pub fn keyed(alloc: Global, line: &str) -> Result<(Key, &str), DriverFault> {
    let (key, rest) = line.split_once(' ').ok_or(DriverFault::Line)?;
    let bytes = decoded(alloc, key)?;
    match Key::new(bytes.bytes()) {
        Ok(key) => Ok((key, rest)),
        Err(_) => Err(DriverFault::Line),
    }
}

/// The bytes whose base64url this is.
pub fn decoded(alloc: Global, text: &str) -> Result<Text, DriverFault> {
    match URL_SAFE_NO_PAD.decode(alloc, text.as_bytes()) {
        Ok(bytes) => Ok(Text::copy(alloc, bytes.as_slice())?),
        Err(DecodeAllocError::OutOfMemory) => Err(DriverFault::Memory),
        Err(DecodeAllocError::DecodeError(_)) => Err(DriverFault::Line),
    }
}

/// The base64url of these bytes.
pub fn encoded(alloc: Global, bytes: &[u8]) -> Result<Text, DriverFault> {
    let text = URL_SAFE_NO_PAD.encode(alloc, bytes)?;
    Ok(Text::copy(alloc, text.as_bytes())?)
}
