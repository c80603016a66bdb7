// Deals and sessions of two gateways.
ghost use Rattle.satp_examples.specs.Deals.{StepsOfADeal, SafeSessions, SettledSessions, TiedTales, AnswersThatAgree};

/// The steps of a deal, sessions that are safe and settled, tales that are tied, and answers that agree with an entry.
pub fn law_deals()
    ensures steps { StepsOfADeal }
    ensures safe { SafeSessions }
    ensures settled { SettledSessions }
    ensures tied { TiedTales }
    ensures agree { AnswersThatAgree }
{}
