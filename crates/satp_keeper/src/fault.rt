ghost use Rattle.std.specs.Prelude.{◌≡◌};
ghost use Rattle.satp_keeper.specs.Opening.{fault_of};
ghost use Rattle.satp_keeper.specs.declared.fault.KeeperFault.TheVariants.{Disk, Memory};

use satp_base::{DiskFault, Entry, Memory};
use satp_journal::JournalFault;
use thiserror::Error;

/// Why a kept ledger wasn't founded or opened, or doesn't answer an operation.
#[derive(Clone, Copy, Debug, PartialEq, Eq, Error)]
pub enum KeeperFault {
    /// The operation may not be asked of this entry.
    #[error("out of order at {entry:?}")]
    OutOfOrder { entry: Entry },
    /// The journal has no record.
    #[error("empty")]
    Empty,
    /// At this place of the journal's area stands the first open gate without a whole record behind it.
    #[error("damaged at {at}")]
    Damaged { at: u64 },
    /// The record of this index, from 0, is the first that may not stand there.
    #[error("record {index}")]
    Record { index: usize },
    /// A call on the disk failed.
    #[error("disk")]
    Disk,
    /// A call on the disk failed before, and the ledger wasn't opened again since.
    #[error("broken")]
    Broken,
    /// No memory was found.
    #[error("out of memory")]
    Memory,
}

impl From<Memory> for KeeperFault {
    ghost from_gives = { λ _ fault. fault ≡ Memory };

    fn from(_memory: Memory) -> KeeperFault {
        KeeperFault::Memory
    }
}

impl From<DiskFault> for KeeperFault {
    ghost from_gives = { λ _ fault. fault ≡ Disk };

    fn from(_fault: DiskFault) -> KeeperFault {
        KeeperFault::Disk
    }
}

/// A fault of the journal's opening.
pub(crate) fn fault_of(fault: JournalFault) -> KeeperFault
    ensures { result ≡ fault_of fault }
{
    match fault {
        JournalFault::Disk => KeeperFault::Disk,
        JournalFault::Damaged { at } => KeeperFault::Damaged { at },
        JournalFault::Memory => KeeperFault::Memory,
        JournalFault::Broken => KeeperFault::Broken,
    }
}
