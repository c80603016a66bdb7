// What a device tells of its calls.
ghost use Rattle.satp_examples.specs.Calls.{CallsAreTold, OrderOfCalls, FailedCalls, FailedAppends, ListedCalls, ReadBytes, MissedCalls};

/// What is told after calls that succeeded, calls that failed, and reads, and in which order.
pub fn law_calls()
    ensures told { CallsAreTold }
    ensures order { OrderOfCalls }
    ensures failed { FailedCalls }
    ensures among { FailedAppends }
    ensures listed { ListedCalls }
    ensures reads { ReadBytes }
    ensures missed { MissedCalls }
{}
