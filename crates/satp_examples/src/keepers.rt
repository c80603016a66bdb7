// Ledgers that are kept in journals.
ghost use Rattle.satp_examples.specs.Keepers.{JournalsOfLedgers, OperationsThatAreKept, RecordsInOrder};

/// The journal of a ledger, the first record that may not stand in one, and what an operation stores.
pub fn law_keepers()
    ensures journals { JournalsOfLedgers }
    ensures operations { OperationsThatAreKept }
    ensures order { RecordsInOrder }
{}
