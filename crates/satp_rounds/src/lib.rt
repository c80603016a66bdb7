//! Two gateways that talk to each other: a round of recovery, a transfer from its proposal on, and a session that is resumed.
//!
//! The laws of this crate stand over definitions alone. They make no call: what each says is its contract.
#![tactic(auto)]

ghost use Rattle.satp_rounds.specs.Conversations.{RoundsSettleWorlds};
ghost use Rattle.satp_rounds.specs.LedgerFunds.{LedgersAnswerSo};
ghost use Rattle.satp_rounds.specs.NewSessions.{TransfersSettleWorlds};
ghost use Rattle.satp_rounds.specs.Resumptions.{ResumptionsEnd};
ghost use Rattle.satp_rounds.specs.RoundRows.{RowsPass};
ghost use Rattle.satp_rounds.specs.Rounds.{RoundsSettle};
ghost use Rattle.satp_rounds.specs.Transfers.{ProposalsEnd, ProposalsSettle, ResumesEnd, TransfersSettle};

/// By kinds alone: from every two sides of a session that the joint invariant allows, a round of recovery, whoever starts
/// it, has at most eight texts, and settles the session with the outcome. A round of the origin does so too where its
/// proposal was lost. What passes in each of some worked rounds, and its outcome. The answers that are supposed of each
/// ledger are the ones that it gives, but for the amounts that they show.
pub fn law_rounds()
    ensures rounds { RoundsSettle }
    ensures proposals { ProposalsSettle }
    ensures rows { RowsPass }
    ensures ledgers { LedgersAnswerSo }
{}

/// Over texts and ledgers: in every world that moves of both gateways lead to, of each session that its origin's records
/// name, a gateway whose records name it too may start a round: its operator asks it to rescue the session, what it says
/// is handed over and so is each reply, and success comes last. No text of it is refused. There is one such round. It has
/// at most eight texts, and leads to a world of the same kind, in which both gateways hold equal logs of the session and
/// both ledgers are settled: committed exactly where the outcome says so, and else rolled back.
pub fn law_settles()
    ensures { RoundsSettleWorlds }
{}

/// A new session is committed in eleven texts where both ledgers accept its amount, and else it is rolled back in at most
/// as many: by kinds alone, and over texts and ledgers in every world that moves of both gateways lead to, wherever the
/// gateway's records don't name the session and it may begin one more.
pub fn law_transfers()
    ensures kinds { TransfersSettle }
    ensures worlds { TransfersSettleWorlds }
{}

/// Whoever resumes a session that its records name has its own chain whole after at most eleven texts; of the peer's
/// nothing is said. By kinds alone: of a session that both sides name, and of an origin's whose proposal was lost. And
/// over texts and ledgers, in every world that moves of both gateways lead to.
pub fn law_resumes()
    ensures sessions { ResumesEnd }
    ensures proposals { ProposalsEnd }
    ensures worlds { ResumptionsEnd }
{}
