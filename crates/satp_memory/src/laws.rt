ghost use Rattle.satp_memory.specs.Following.{DiskCallsKeep, SiteCallsKeep};

/// What calls on a disk or a site in memory leave, whichever they were. The stop and the named calls stay, events are only added, none past the stop, and a fault that was counted has a cause.
pub fn law_calls_keep()
    ensures disks { DiskCallsKeep }
    ensures sites { SiteCallsKeep }
{}
