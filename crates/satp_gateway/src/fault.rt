ghost use Rattle.std.specs.Prelude.{◌≡◌};
ghost use Rattle.satp_gateway.specs.declared.fault.SetUpFault.TheVariants.{Memory as NoMemory, Site as SiteFailed};

use satp_base::{Memory, SiteFault};

/// Why a gateway wasn't set up.
#[derive(Clone, Copy, Debug, PartialEq, Eq)]
pub enum SetUpFault {
    /// The journal has a record: a gateway is there.
    Already,
    /// At this place of the journal stands the first open gate without a whole record after it.
    Damaged { at: u64 },
    /// A call on the site failed.
    Site,
    /// No memory was found.
    Memory,
}

impl From<Memory> for SetUpFault {
    ghost from_gives = { λ _ fault. fault ≡ NoMemory };

    fn from(_want: Memory) -> SetUpFault {
        SetUpFault::Memory
    }
}

impl From<SiteFault> for SetUpFault {
    ghost from_gives = { λ _ fault. fault ≡ SiteFailed };

    fn from(_fault: SiteFault) -> SetUpFault {
        SetUpFault::Site
    }
}

/// Why a gateway wasn't opened.
#[derive(Clone, Copy, Debug, PartialEq, Eq)]
pub enum OpenFault {
    /// At this place of the journal stands the first open gate without a whole record after it.
    Damaged { at: u64 },
    /// The journal has no record: no gateway was set up.
    Empty,
    /// The record at this index, from 0, is the first that may not stand there.
    Record { index: usize },
    /// A call on the site failed.
    Site,
    /// No memory was found.
    Memory,
}
