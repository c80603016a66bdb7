// A disk and a site in memory over calls.
ghost use Rattle.satp_examples.specs.MemoryCalls.{CausesOfFaultsInMemory, DisksGoOn, SingleCalls, SitesGoOn};

/// How a disk and a site in memory go on over calls, and why a call on them may fail.
pub fn law_memory_calls()
    ensures disks { DisksGoOn }
    ensures calls { SingleCalls }
    ensures causes { CausesOfFaultsInMemory }
    ensures sites { SitesGoOn }
{}
