// What holds of the definitions alone.
ghost use Rattle.satp_drive.specs.AtPoints.{DriveLaw};
ghost use Rattle.satp_drive.specs.Laws.{AnswersAreHeard, LastIsUnanswered};

/// What a drive has heard are the answers to its texts, in their order, in whatever pieces they came. Where the last text has none, all that was heard
/// ends before the answer is whole, or in the fault that the drive tells.
pub fn law_drives()
    ensures whole { AnswersAreHeard }
    ensures last { LastIsUnanswered }
{}

/// At a site that tells, a drive is a function of what it hears: it posts what that function posts, makes its moves, and ends as it does.
pub fn law_driven()
    ensures { DriveLaw }
{}
