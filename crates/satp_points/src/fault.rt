use satp_base::{SessionId, Verdict};
use satp_canon::CanonFault;
use satp_jws::JwsFault;
use satp_recovery::RecoveryFault;

/// Why a gateway refuses a call. Each value that it carries is the one that was found, or the one that the gateway keeps.
#[derive(Clone, Copy, Debug, PartialEq, Eq)]
pub enum Refused {
    /// An earlier call answered `Site`. The gateway has to be opened again.
    Broken,
    /// The body has so many bytes, which is over 8,192.
    Size { length: usize },
    /// The body is no compact JWS under the key. The fault is never want of memory.
    Jws { fault: JwsFault },
    /// The header isn't `{"alg":"HS256"}`, byte for byte.
    Header,
    /// The payload is no message's canonical text. The fault is never want of memory.
    Body { fault: CanonFault },
    /// The message isn't from the peer to this gateway.
    Receiver,
    /// The session is of neither gateway, or no record names it.
    Strange { session: SessionId },
    /// The session's chain says this of the message. It is neither the next one nor one that the chain has.
    Chain { verdict: Verdict },
    /// What the peer says of its chain in a recovery round is refused.
    Recovery { fault: RecoveryFault },
    /// So many sessions were begun in this role, and no more may be.
    Full { count: u32 },
    /// A record names the session already.
    Exists,
    /// The message at this place decides the session.
    TooLate { place: u8 },
    /// A call on the site failed.
    Site,
    /// No memory was found.
    Memory,
}
