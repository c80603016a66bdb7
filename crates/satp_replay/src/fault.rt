ghost use Rattle.std.specs.Prelude.{◌≡◌};
ghost use Rattle.satp_replay.specs.declared.fault.ReplayFault.TheVariants.{Memory};
ghost use Rattle.satp_replay.specs.Faults.{read_fault, unread_fault};

use satp_base::Memory;
use satp_journal::Unread;
use satp_log::LogFault;

/// Why bytes are no gateway's journal.
#[derive(Clone, Copy, Debug, PartialEq, Eq)]
pub enum ReplayFault {
    /// At this place, from 0, stands the first open gate without a whole record after it.
    Damaged { at: u64 },
    /// They have no record.
    Empty,
    /// The record at this index, from 0, is the first that may not stand there.
    Record { index: usize },
    /// No memory was found.
    Memory,
}

impl From<Memory> for ReplayFault {
    ghost from_gives = { λ _ fault. fault ≡ Memory };

    fn from(_memory: Memory) -> ReplayFault {
        ReplayFault::Memory
    }
}

impl From<Unread> for ReplayFault {
    ghost from_gives = { λ unread fault. fault ≡ unread_fault unread };

    fn from(unread: Unread) -> ReplayFault {
        match unread {
            Unread::Damaged { at, .. } => ReplayFault::Damaged { at },
            Unread::Memory => ReplayFault::Memory,
        }
    }
}

impl From<LogFault> for ReplayFault {
    ghost from_gives = { λ unread fault. fault ≡ read_fault unread };

    fn from(unread: LogFault) -> ReplayFault {
        match unread {
            LogFault::Empty => ReplayFault::Empty,
            LogFault::Record { index } => ReplayFault::Record { index },
            LogFault::Memory => ReplayFault::Memory,
        }
    }
}
