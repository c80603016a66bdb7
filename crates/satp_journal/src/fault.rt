ghost use Rattle.std.specs.Prelude.{◌≡◌};
ghost use Rattle.satp_journal.specs.Listing.{unread_fault};
ghost use Rattle.satp_journal.specs.declared.fault.JournalFault.TheVariants.{Memory, Disk};
ghost use Rattle.satp_journal.specs.declared.fault.Unread.TheVariants as unread;

use satp_base::{DiskFault, Memory};
use std::alloc::AllocError;
use thiserror::Error;

/// Why a journal wasn't opened, or a payload wasn't added.
#[derive(Clone, Copy, Debug, PartialEq, Eq, Error)]
pub enum JournalFault {
    /// A call on the disk failed.
    #[error("disk")]
    Disk,
    /// At this place stands the first open gate without a whole record behind it.
    #[error("damaged at {at}")]
    Damaged { at: u64 },
    /// No memory was found.
    #[error("out of memory")]
    Memory,
    /// A call on the disk failed before, and the journal wasn't opened again since.
    #[error("broken")]
    Broken,
}

impl From<AllocError> for JournalFault {
    ghost from_gives = { λ _ fault. fault ≡ Memory };

    fn from(_error: AllocError) -> JournalFault {
        JournalFault::Memory
    }
}

impl From<DiskFault> for JournalFault {
    ghost from_gives = { λ _ fault. fault ≡ Disk };

    fn from(_fault: DiskFault) -> JournalFault {
        JournalFault::Disk
    }
}

/// Why bytes stand for no list of payloads.
#[derive(Clone, Copy, Debug, PartialEq, Eq, Error)]
pub enum Unread {
    /// At this place stands the first open gate without a whole record behind it; so many payloads come before.
    #[error("damaged at {at}, behind {index} payloads")]
    Damaged { at: u64, index: usize },
    /// No memory was found.
    #[error("out of memory")]
    Memory,
}

impl From<Memory> for Unread {
    ghost from_gives = { λ _ fault. fault ≡ unread.Memory };

    fn from(_memory: Memory) -> Unread {
        Unread::Memory
    }
}

impl From<AllocError> for Unread {
    ghost from_gives = { λ _ fault. fault ≡ unread.Memory };

    fn from(_error: AllocError) -> Unread {
        Unread::Memory
    }
}

impl From<Unread> for JournalFault {
    ghost from_gives = { λ unread fault. fault ≡ unread_fault unread };

    fn from(unread: Unread) -> JournalFault {
        match unread {
            Unread::Damaged { at, .. } => JournalFault::Damaged { at },
            Unread::Memory => JournalFault::Memory,
        }
    }
}
