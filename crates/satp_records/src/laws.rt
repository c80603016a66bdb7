//! Theorems on payloads. They stand over definitions alone and make no call.

ghost use Rattle.satp_records.specs.Laws.{OneRecord, PayloadsFit};

/// Every record that can be stored has a payload of 1 to 4,096 bytes, which a journal takes, and no two such records
/// have the same.
pub fn law_payloads()
    ensures fit { PayloadsFit }
    ensures one { OneRecord }
{}
