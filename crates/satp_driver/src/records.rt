use crate::base64url::{decoded, encoded};
use crate::fault::DriverFault;
use satp_base::Text;
use satp_records::{RecordFault, decode, encode};
use std::alloc::Global;

/// The payload of the record that a line's payload is read as, both as base64url, or `refused`.
pub fn record_line(alloc: Global, line: &str) -> Result<Text, DriverFault> {
    let payload = decoded(alloc, line)?;
    match decode(alloc, payload.bytes()) {
        Ok(stored) => encoded(alloc, encode(alloc, &stored)?.bytes()),
        Err(RecordFault::Memory) => Err(DriverFault::Memory),
        Err(_) => Ok(Text::copy(alloc, b"refused")?),
    }
}
