//! Theorems on the answers of a recovery round. They stand over definitions alone and make no call.

ghost use Rattle.satp_recovery.specs.Rounds.{AgreesByCases, AnswersByCases, TakesByCases};

/// Each of the three answers is what its cases say.
pub fn law_rounds()
    ensures answers { AnswersByCases }
    ensures takes { TakesByCases }
    ensures agrees { AgreesByCases }
{}
