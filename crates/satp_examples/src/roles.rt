// What each side of a session does next, and which record may come.
ghost use Rattle.satp_examples.specs.Roles.{ViewsOfRecords, NextSteps, RecordsThatMayCome, AnswersAndRecords};

/// The view of a session's records, its next steps, and records that may come and that may not.
pub fn law_roles()
    ensures views { ViewsOfRecords }
    ensures next { NextSteps }
    ensures records { RecordsThatMayCome }
    ensures answers { AnswersAndRecords }
{}
