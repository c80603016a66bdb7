// Gateways that are set up.
ghost use Rattle.satp_examples.specs.SetUps.{AnswersToSetUps, DecidedByBytes, FoundingsOfSetUps};

/// What a set-up answers, which bytes decide it, and that it founds a ledger at most once.
pub fn law_set_ups()
    ensures answers { AnswersToSetUps }
    ensures decided { DecidedByBytes }
    ensures foundings { FoundingsOfSetUps }
{}
