// What each side of a session answers.
ghost use Rattle.satp_examples.specs.Choices.{AnswersToAborts, PartsThatAreMade, RecordsOfAnswers, RescuesOfSides, ViewsThatAreReached};

/// Records after answers, answers to aborts and rescues, views that are reached, and parts of messages that are due.
pub fn law_choices()
    ensures records { RecordsOfAnswers }
    ensures aborts { AnswersToAborts }
    ensures rescues { RescuesOfSides }
    ensures views { ViewsThatAreReached }
    ensures parts { PartsThatAreMade }
{}
