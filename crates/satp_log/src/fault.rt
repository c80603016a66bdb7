ghost use Rattle.std.specs.Prelude.{◌≡◌};
ghost use Rattle.satp_log.specs.declared.fault.Misfit.TheVariants.{Memory};

use satp_base::Memory;
use satp_canon::CanonFault;
use satp_jws::JwsFault;

/// Why a text is no message's own text under a key. The variants stand in the order in which they are tested; want of memory may come at any point.
#[derive(Clone, Copy, Debug, PartialEq, Eq)]
pub enum Unheard {
    /// It is no compact JWS under the key. The fault is never want of memory.
    Jws { fault: JwsFault },
    /// Its header isn't `{"alg":"HS256"}`, byte for byte.
    Header,
    /// Its payload is no message's canonical text. The fault is never want of memory.
    Body { fault: CanonFault },
    /// No memory was found.
    Memory,
}

/// Why a record isn't added to those before it.
#[derive(Clone, Copy, Debug, PartialEq, Eq)]
pub enum Misfit {
    /// It may not come next.
    Refused,
    /// No memory was found.
    Memory,
}

impl From<Memory> for Misfit {
    ghost from_gives = { λ _ misfit. misfit ≡ Memory };

    fn from(_memory: Memory) -> Misfit {
        Misfit::Memory
    }
}

/// Why payloads are no gateway's journal.
#[derive(Clone, Copy, Debug, PartialEq, Eq)]
pub enum LogFault {
    /// There is none.
    Empty,
    /// The one at this index, from 0, is the first that may not stand there.
    Record { index: usize },
    /// No memory was found.
    Memory,
}
