// Calls on a ledger.
ghost use Rattle.satp_examples.specs.Acts.{OperationsOfALedger, CallsOfALedger, FoundingsOfALedger, LedgersInMemory, SoundBooks, AmountsThatAgree};

/// What calls on a ledger may answer, which events and books they leave, books that are sound, and amounts that agree with a book.
pub fn law_acts()
    ensures operations { OperationsOfALedger }
    ensures calls { CallsOfALedger }
    ensures foundings { FoundingsOfALedger }
    ensures memory { LedgersInMemory }
    ensures sound { SoundBooks }
    ensures agree { AmountsThatAgree }
{}
