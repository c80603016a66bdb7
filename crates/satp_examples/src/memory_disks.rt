// Calls on a disk in memory.
ghost use Rattle.satp_examples.specs.MemoryDisks.{EndsOfCalls, NotesOfCalls, EventsOfCalls, FreshAndRestarted};

/// How calls on a disk in memory end, what they note and add, and what a new disk and a restart leave.
pub fn law_memory_disks()
    ensures ends { EndsOfCalls }
    ensures notes { NotesOfCalls }
    ensures events { EventsOfCalls }
    ensures disks { FreshAndRestarted }
{}
