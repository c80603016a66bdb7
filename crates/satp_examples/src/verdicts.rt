// What a chain says of messages.
ghost use Rattle.satp_examples.specs.Verdicts.{VerdictsOfChains, WhatIsNext};

/// Verdicts of a chain, and the message that is next.
pub fn law_verdicts()
    ensures verdicts { VerdictsOfChains }
    ensures next { WhatIsNext }
{}
