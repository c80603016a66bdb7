// What comes of a piece of what is heard.

use satp_base::Memory;

/// Whether more is to be heard.
#[derive(Clone, Copy, Debug, PartialEq, Eq)]
pub enum Turn {
    More,
    /// The connection is to be closed after what was said.
    Close,
}

/// Why a request has no answer.
#[derive(Clone, Copy, Debug, PartialEq, Eq)]
pub enum ServeFault {
    /// A call on the site failed.
    Site,
    /// No memory was found.
    Memory,
}

impl From<Memory> for ServeFault {
    ghost use Rattle.std.specs.Prelude.{◌≡◌};
    ghost use Rattle.satp_serve.specs.declared.turn.ServeFault.TheVariants.{Memory};

    ghost from_gives = { λ _ fault. fault ≡ Memory };

    fn from(_memory: Memory) -> ServeFault {
        ServeFault::Memory
    }
}

/// What came of one call on the bytes that are held.
#[derive(Clone, Copy, Debug, PartialEq, Eq)]
pub(crate) enum Step {
    /// No request is whole.
    Waits,
    /// A request was answered, and more may be.
    Answered,
    /// The last answer was said.
    Closes,
}
