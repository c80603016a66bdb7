//! One gateway before its ledger: what it keeps, which records and moves may come, what is due, and what it answers to each call.
//!
//! The laws of this crate stand over definitions alone. They make no call: what each says is its contract.
#![tactic(auto)]

ghost use Rattle.std.specs.Prelude.{List};
ghost use Rattle.satp_sides.specs.Points.{Party, Side, Text};
ghost use Rattle.satp_sides.specs.Said.{MovesGo, SaidIsKept};
ghost use Rattle.satp_sides.specs.DueLaws.{DueIsAnswered, DueIsShort, DueRests, MadeRests, TurnsAreEnough};
ghost use Rattle.satp_sides.specs.Others.{DueIsOf, RunsAreOf};
ghost use Rattle.satp_sides.specs.LogLaws.{LogGrows, LogSessions, LogTexts, LogsAreBounded};

/// Due work is done within three turns, over every view: it stores at most three records and asks for at most two
/// operations, and after it, or after a message that it makes, nothing is due. What is due is answered on each entry
/// that can stand beside the view.
pub fn law_due()
    ensures rests { DueRests }
    ensures enough { TurnsAreEnough }
    ensures short { DueIsShort }
    ensures made { MadeRests }
    ensures answered { DueIsAnswered }
{}

/// What holds of every log, whoever wrote it. It goes on by each record that may come, and its first records are a log.
/// Of a session it says what records that the role's rule allows say, in the role that the session's name gives, with
/// the texts of one chain. It begins at most as many sessions as a gateway may, and its texts are those of messages.
pub fn law_logs()
    ensures grows { (p : Party) → LogGrows p }
    ensures sessions { LogSessions }
    ensures bounded { LogsAreBounded }
    ensures texts { LogTexts }
{}

/// What holds of every list of moves. Its first ones are moves, which is what a stop leaves, and it stays one where more
/// texts are in the bag. It keeps a log, and what a gateway may say stands in its records from then on. The moves of due
/// work, and of every call, are of its session.
pub fn law_moves()
    ensures go { (p : Party) (side : Side) (bag : List Text) → MovesGo p side bag }
    ensures said { SaidIsKept }
    ensures due_of { DueIsOf }
    ensures call_of { RunsAreOf }
{}
