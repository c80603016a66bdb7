// A ledger of outputs.
ghost use Rattle.satp_examples.specs.Outputs.{OutputsOfALedger, OutputsOfOperations, OutputsOfAnswers, EndsOfTakings};

/// The outputs of a founding, what each operation does to them, and where a taking ends.
pub fn law_outputs()
    ensures ledger { OutputsOfALedger }
    ensures operations { OutputsOfOperations }
    ensures answers { OutputsOfAnswers }
    ensures takings { EndsOfTakings }
{}
