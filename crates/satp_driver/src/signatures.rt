use crate::base64url::{decoded, encoded, keyed};
use crate::fault::DriverFault;
use satp_base::Text;
use satp_jws::{JwsFault, sign, verify};
use std::alloc::Global;

/// The JWS for a line `<key> <payload>`.
pub fn sign_line(alloc: Global, line: &str) -> Result<Text, DriverFault> {
    let (key, payload) = keyed(alloc, line)?;
    let payload = decoded(alloc, payload)?;
    Ok(sign(alloc, &key, payload.bytes())?)
}

/// `ok` and the payload for a line `<key> <jws>`, or `refused`.
pub fn verify_line(alloc: Global, line: &str) -> Result<Text, DriverFault> {
    let (key, jws) = keyed(alloc, line)?;
    match verify(alloc, &key, jws.as_bytes()) {
        Ok(verified) => {
            let mut answer = Text::copy(alloc, b"ok ")?;
            answer.append(encoded(alloc, verified.payload.bytes())?.bytes())?;
            Ok(answer)
        }
        Err(JwsFault::Memory) => Err(DriverFault::Memory),
        Err(_) => Ok(Text::copy(alloc, b"refused")?),
    }
}
