// Counts of faults, streams and wires.
ghost use Rattle.satp_examples.specs.Wires.{CausesOfFaults, LastReads, ReadsAndWrites, TrafficOnWires};

/// When a fault may be answered, what a stream gives and takes, which read is its last, and what a wire tells.
pub fn law_wires()
    ensures causes { CausesOfFaults }
    ensures streams { ReadsAndWrites }
    ensures last { LastReads }
    ensures wires { TrafficOnWires }
{}
