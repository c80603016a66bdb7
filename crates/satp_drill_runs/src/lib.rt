//! What a drill is: two gateways that a schedule's lines lead through stops, failing calls and lost messages, and the report at its end.
//!
//! The laws of this crate stand over definitions alone. They make no call: what each says is its contract.
#![tactic(auto)]

ghost use Rattle.satp_drill_runs.specs.Laws.{DrillsFinish, DrillsRun, LinesReach, StartsCommit};
ghost use Rattle.satp_drill_runs.specs.Rows.{RowsHold};

/// Whatever the lines of a schedule are, in any order, and whatever they stop, fail, lose or hand over twice: they lead to one world,
/// which moves of both gateways lead to, so that all that holds of such worlds holds of it. With the round of each session that was
/// begun they are one drill and no other, so that a schedule has one report. At its end each of these sessions is settled on both
/// ledgers. The sessions that committed, that were rolled back and that were not begun are those of the schedule, and all the gold is
/// free, 20,000.
///
/// Lines that start sessions and do nothing else commit each of them, wherever both ledgers accept its amount when its turn comes, no
/// record names it yet and its gateway has room for one more.
pub fn law_drills()
    ensures run { DrillsRun }
    ensures reach { LinesReach }
    ensures finish { DrillsFinish }
    ensures starts { StartsCommit }
{}

/// Rows of what goes wrong. What is left of an append, an operation or a text at a site that stops, and at one that fails a call. A
/// text that is lost counts as sent, and nothing else happens. What was to go wrong in a command is dropped after it. A number past the
/// texts sent delivers nothing. A start whose first call on its site fails begins no session; one whose third call fails, the write of
/// the gate, is rolled back by the round at the end.
pub fn law_rows()
    ensures { RowsHold }
{}
