//! What a drive comes to whose connection the other gateway serves: the two ends of one wire.
//!
//! The laws of this crate stand over definitions alone. They make no call: what each says is its contract.
#![tactic(auto)]

ghost use Rattle.satp_wire_laws.specs.Wired.{RecoveriesMeet, ResumptionsMeet, StartsMeet};

/// A drive whose connection the other gateway of a reached world accepts and serves, until the drive ends it. Each end heard just the bytes that the other one said. No call failed
/// at either end, and memory was found.
///
/// So the drive is the one round of that world, the one transfer, or the session that is resumed, and ends as it does: a recovery after at most eight texts, by the round's outcome; a new session
/// committed in eleven texts where both ledgers accept it, and else rolled back; a resumed session as its own chain does. What was posted and answered are just these texts, in their order.
/// Both gateways stand in the world after them, each at its site.
pub fn law_two_ends()
    ensures recover { RecoveriesMeet }
    ensures start { StartsMeet }
    ensures resume { ResumptionsMeet }
{}
