// Laws over definitions alone.
ghost use Rattle.satp_base.specs.Laws.{OneReading, ReadsAnImage, InAppendReads, AppendLeaves, AppendDecides, AppendEnds, CutPrefixes, OpenBegins, OpenLeaves, OpenKeeps, OpenStaysShort, OpenEnds, ReopenReads, ReopenLeaves, ReopenEnds, ReopenRests, RestartLeaves};

/// What the bytes of a journal stand for.
pub fn law_readings()
    ensures { OneReading }
{}

/// What a stop leaves of an append, at each of its events and after a failed one.
pub fn law_append()
    ensures each { AppendLeaves }
    ensures image { InAppendReads }
    ensures gate { AppendDecides }
    ensures end { AppendEnds }
    ensures read { ReadsAnImage }
    ensures prefixes { CutPrefixes }
{}

/// What a stop leaves of an opening, at each of its events and after a failed one.
pub fn law_open()
    ensures begins { OpenBegins }
    ensures each { OpenLeaves }
    ensures append { OpenKeeps }
    ensures short { OpenStaysShort }
    ensures end { OpenEnds }
{}

/// What an opening leaves that begins where an append, or an opening after it, was stopped.
pub fn law_reopen()
    ensures read { ReopenReads }
    ensures each { ReopenLeaves }
    ensures end { ReopenEnds }
    ensures rest { ReopenRests }
    ensures restart { RestartLeaves }
{}
