// The payloads of records.
ghost use Rattle.satp_examples.specs.Records.{PayloadsOfRecords, RecordsToStore, PayloadsRead, PayloadsRefused};

/// The payload of each kind of record, records that can be stored, and payloads that are read or refused.
pub fn law_records()
    ensures payloads { PayloadsOfRecords }
    ensures formed { RecordsToStore }
    ensures read { PayloadsRead }
    ensures refused { PayloadsRefused }
{}
