// How `init` ends.
ghost use Rattle.satp_examples.specs.Inits.{EndsOfInit};

/// Ends of `init` with what they leave, and ends that don't go with what is left.
pub fn law_inits()
    ensures { EndsOfInit }
{}
