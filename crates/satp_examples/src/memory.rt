// Devices in memory.
ghost use Rattle.satp_examples.specs.Memory.{CallsThatFail, CallsOnLedgers, StopsOfADisk, PickedImages};

/// Which calls fail and what is counted, where a disk stops, and what a restart leaves.
pub fn law_memory()
    ensures calls { CallsThatFail }
    ensures ledgers { CallsOnLedgers }
    ensures stops { StopsOfADisk }
    ensures picks { PickedImages }
{}
