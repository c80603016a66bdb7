// Operations on a ledger, and the records that go with it.
ghost use Rattle.satp_examples.specs.LedgerRecords.{OperationsThatAreTold, RecordsThatFit};

/// What a site in memory tells of an operation, and which records go with a ledger.
pub fn law_ledger_records()
    ensures told { OperationsThatAreTold }
    ensures fits { RecordsThatFit }
{}
