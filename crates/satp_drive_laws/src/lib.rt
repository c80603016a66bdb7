//! What drives and served connections come to in a world of two gateways.
//!
//! The laws of this crate stand over definitions alone. They make no call: what each says is its contract.
#![tactic(auto)]

ghost use Rattle.satp_drive_laws.specs.Asks.{DrivesAsk};
ghost use Rattle.satp_drive_laws.specs.Completing.{RecoveriesComplete, ResumptionsComplete, StartsComplete};
ghost use Rattle.satp_drive_laws.specs.Quiet.{RecoveriesEnd, ResumptionsEndSo, StartsEnd};

/// A drive makes no call of its gateway but its own, and then the handling of each body of an answer of code 200, in their order.
pub fn law_drives_ask()
    ensures { DrivesAsk }
{}

/// A drive that nothing disturbs, whose texts are answered with whatever the other gateway of a reached world answers to them, goes along the texts that pass between both: it ends when just
/// these have passed, in their order, as the session does; or the first of them have passed, and it posts the next one, after fewer than sixteen. It ends in no other way: no refusal comes, from
/// either gateway. Both stand in the world that they have come to.
pub fn law_undisturbed()
    ensures recover { RecoveriesComplete }
    ensures start { StartsComplete }
    ensures resume { ResumptionsComplete }
{}

/// What a drive answers over a site and a wire on which no call failed, where memory was found, and whose peer answered each text with whatever the other gateway of a reached world answers to
/// it: a reply with code 200 or 204, a refusal by its code and its words. No refusal comes.
///
/// A recovery is the one round of that world, of at most eight texts, and ends by its outcome; a new session is the one transfer, committed in eleven texts where both ledgers accept
/// it and else rolled back; a session that is resumed ends as its own chain does, after at most eleven texts. What was posted and answered are just these texts,
/// in their order, and the number of messages is theirs. Both gateways stand in the world after them.
pub fn law_completes()
    ensures recover { RecoveriesEnd }
    ensures start { StartsEnd }
    ensures resume { ResumptionsEndSo }
{}
