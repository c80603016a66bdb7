//! Theorems on what the sides may store. They stand over definitions alone and make no call.

ghost use Rattle.satp_base.specs.Roles.{AnswersGiveRecords, RescuesAsRuled};

/// The record after an answer is what `after_of` gives of an answer that the operation may have.
pub fn law_answers()
    ensures { AnswersGiveRecords }
{}

/// A rescue may come exactly where the side may enter a recovery round.
pub fn law_rescues()
    ensures { RescuesAsRuled }
{}
