// What came of a drive.

use satp_http::HttpFault;
use satp_points::Refused;

/// Why a drive ended.
#[derive(Clone, Copy, Debug, PartialEq, Eq)]
pub enum DriveEnd {
    /// The session's chain is whole and committed, and nothing is left to post.
    Committed,
    /// The session's chain is whole and rolled back, and nothing is left to post.
    RolledBack,
    /// A call on the wire failed.
    Wire,
    /// The peer ended the connection before its answer was whole.
    Early,
    /// The last answer has this code, neither 200 nor 204.
    Status { code: u16 },
    /// The bytes of the last answer have this fault. It is never want of memory.
    NotHttp { fault: HttpFault },
    /// Nothing is left to post after the last answer, while the chain isn't whole.
    Silent,
    /// The gateway refused the last answer. It is never `Broken`, `Site` or `Memory`.
    Refused { fault: Refused },
    /// Sixteen texts were posted and answered, and one more is to be posted.
    Turns,
    /// A call on the site failed.
    Site,
    /// No memory was found.
    Memory,
}

/// What came of a drive.
#[derive(Clone, Copy, Debug, PartialEq, Eq)]
pub struct Driven {
    pub end: DriveEnd,
    /// How many texts were posted and answered: those whose request was said whole, and the bodies of the whole answers of code 200,
    /// refused ones too. At the end `Memory` the answer to the last request may be left uncounted.
    pub messages: u32,
}
