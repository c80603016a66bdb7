use satp_base::Memory;
use std::alloc::AllocError;
use std::io;

/// Why the driver ends early.
#[derive(Clone, Copy, Debug, PartialEq, Eq)]
pub enum DriverFault {
    /// The words name nothing that it drives.
    Words,
    /// A line or a request is faulty.
    Line,
    /// No memory was found.
    Memory,
    /// The input or the output failed.
    Stream,
}

impl DriverFault {
    /// The exit status.
    pub fn status(self) -> u8 {
        match self {
            DriverFault::Words => 2,
            DriverFault::Line => 5,
            DriverFault::Memory => 10,
            DriverFault::Stream => 11,
        }
    }
}

impl From<Memory> for DriverFault {
    fn from(_memory: Memory) -> DriverFault {
        DriverFault::Memory
    }
}

impl From<AllocError> for DriverFault {
    fn from(_error: AllocError) -> DriverFault {
        DriverFault::Memory
    }
}

impl From<io::Error> for DriverFault {
    fn from(error: io::Error) -> DriverFault {
        if error.kind() == io::ErrorKind::OutOfMemory {
            DriverFault::Memory
        } else {
            DriverFault::Stream
        }
    }
}
