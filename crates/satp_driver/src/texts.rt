use crate::fault::DriverFault;
use satp_base::Text;
use satp_canon::{CanonFault, read, write};
use std::alloc::Global;

/// The canonical text of the message that a line is read as, or `refused`.
pub fn text_line(alloc: Global, line: &str) -> Result<Text, DriverFault> {
    match read(alloc, line.as_bytes()) {
        Ok(message) => Ok(write(alloc, &message)?),
        Err(CanonFault::Memory) => Err(DriverFault::Memory),
        Err(_) => Ok(Text::copy(alloc, b"refused")?),
    }
}
