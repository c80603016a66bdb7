// A wire in memory.
ghost use Rattle.satp_examples.specs.MemoryWires.{OpeningsOfAWire, TalkOnAWire, TrafficInMemory};

/// When a wire in memory opens its connection, what is heard and said on it, and what it tells.
pub fn law_memory_wires()
    ensures opens { OpeningsOfAWire }
    ensures talk { TalkOnAWire }
    ensures told { TrafficInMemory }
{}
