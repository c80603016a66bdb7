//! What a gateway answers and the moves that it makes, at work on small sessions: for each rule an example, and a near miss that is refused.
//!
//! The laws of this crate stand over definitions alone. They make no call: what each says is its contract.
#![tactic(auto)]

ghost use Rattle.satp_side_examples.specs.Answers.{Addresses, FirstMessages, MessagesAgain, WholeAgain};
ghost use Rattle.satp_side_examples.specs.Ends.{AbortsAsked, Beginnings, WorkAsked};
ghost use Rattle.satp_side_examples.specs.Journals.{JournalsOfASession, RecordsCaseByCase, RecordsThatMayNotCome};
ghost use Rattle.satp_side_examples.specs.Moving.{EntriesRead, MovesMade, TextsThatAreSaid, TextsThatCome};
ghost use Rattle.satp_side_examples.specs.Passing.{CallsLeaveAlone, EventsThatHappen, TextsOutOfDate};
ghost use Rattle.satp_side_examples.specs.Recovery.{LostMessages, RoundsAnswered, RoundsStarted, SuccessesHeard, UpdatesHeard};
ghost use Rattle.satp_side_examples.specs.Tested.{DueIsStored, LogsNameSessions, RunsAreAnswered};
ghost use Rattle.satp_side_examples.specs.Work.{LocksAndBurns, Mints};

/// Messages of a chain: the first ones of a session, who may say what to whom, and one that comes again.
pub fn law_answers()
    ensures first { FirstMessages }
    ensures addresses { Addresses }
    ensures again { MessagesAgain }
    ensures whole { WholeAgain }
{}

/// What is done after a message that is taken, for each answer of the ledger.
pub fn law_work()
    ensures mints { Mints }
    ensures locks { LocksAndBurns }
{}

/// Starts up to the last one, calls for due work, and aborts with those that come too late.
pub fn law_ends()
    ensures begin { Beginnings }
    ensures work { WorkAsked }
    ensures aborts { AbortsAsked }
{}

/// Recovery rounds: what the side says that starts one, what it is answered, what it makes of that, and the end.
pub fn law_recovery()
    ensures started { RoundsStarted }
    ensures answered { RoundsAnswered }
    ensures heard { UpdatesHeard }
    ensures ended { SuccessesHeard }
    ensures lost { LostMessages }
{}

/// Which records may be stored: case by case, near misses, and the journals of a whole session.
pub fn law_journals()
    ensures cases { RecordsCaseByCase }
    ensures refused { RecordsThatMayNotCome }
    ensures whole { JournalsOfASession }
{}

/// Which texts come and are said, the entry of an update, and which moves are made.
pub fn law_moving()
    ensures come { TextsThatCome }
    ensures entries { EntriesRead }
    ensures said { TextsThatAreSaid }
    ensures moves { MovesMade }
{}

/// A session that isn't named has no record, a call that no test refuses is answered or asks the ledger, and due work keeps a log.
pub fn law_tested()
    ensures named { LogsNameSessions }
    ensures answered { RunsAreAnswered }
    ensures stored { DueIsStored }
{}

/// What may happen to two gateways, honest texts that are refused since they come too early or too late, and what a call
/// says and leaves alone.
pub fn law_passing()
    ensures happen { EventsThatHappen }
    ensures outdated { TextsOutOfDate }
    ensures alone { CallsLeaveAlone }
{}
