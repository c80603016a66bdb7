//! A theorem on plans. It stands over definitions alone and makes no call.

ghost use Rattle.satp_plan.specs.Plans.{DueIsPlanned};

/// The records of a plan are those that are due.
pub fn law_planned()
    ensures { DueIsPlanned }
{}
