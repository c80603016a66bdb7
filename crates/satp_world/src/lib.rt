//! Two gateways and all their sessions: what each may do, and what always holds of both.
//!
//! The laws of this crate stand over definitions alone. They make no call: what each says is its contract.
#![tactic(auto)]

ghost use Rattle.satp_world.specs.Deal.{LawDeals};
ghost use Rattle.satp_world.specs.Sessions.{LawSessions, LawStep};
ghost use Rattle.satp_world.specs.Standing.{BeginningStands, MovesStand, SessionsRun, SessionsRunFromTheFirst};
ghost use Rattle.satp_world.specs.Effects.{AnswersStand, AnswersWereSaid, OthersStay, RunsSayTheirAnswers};
ghost use Rattle.satp_world.specs.Histories.{EventsAreSafe, EventsKeepTotals, EventsReach, EventsRunDeals};
ghost use Rattle.satp_world.specs.Honest.{HonestIsTaken};
ghost use Rattle.satp_world.specs.Work.{HeardRunsMove, OperatorsRunsMove, WorkMoves};
ghost use Rattle.satp_world.specs.Worlds.{LawSafety};
ghost use Rattle.satp_world.specs.Examples.{LawEndings};
ghost use Rattle.satp_world.specs.Ledgers.{AfterFits, AgreedIsAnswered, RuleAgrees};
ghost use Rattle.satp_world.specs.Kept.{BagWasSaid, LogsAreKept, MovesReach, RoomLeft, SaidIsShort, SenderKnows};
ghost use Rattle.satp_world.specs.Limits.{LawLimits};
ghost use Rattle.satp_world.specs.Totals.{LawTotal};

/// The deals that steps of the machine lead to from the first one are those of a list, and no other. Six steps lead to
/// each of them.
pub fn law_deals()
    ensures { LawDeals }
{}

/// From every state of a session in which the joint invariant holds, each move of either side keeps it, and is a step
/// of the deal machine or leaves the deal as it is. Ledgers may answer as their amounts allow.
///
/// The same of both gateways with all their sessions, over signed texts, ledgers and the bag: ledgers as they were
/// founded meet the invariant, and from any two sides that meet it each move keeps it.
pub fn law_step()
    ensures session { LawStep }
    ensures beginning { BeginningStands }
    ensures moves { MovesStand }
{}

/// The moves of one session see no amounts. What a ledger answers by its rule is an answer that they allow, with the
/// entries that it finds and leaves, and every answer that they allow is given by some ledger. The record after an answer
/// fits the ledger as the operation left it.
pub fn law_ledgers()
    ensures rule { RuleAgrees }
    ensures answered { AgreedIsAnswered }
    ensures fits { AfterFits }
{}

/// In every state that moves of both sides lead to, the asset is never free on both ledgers, a burnt entry has its
/// mint recorded and the recipient ready, and a session whose two tales are one whole tale is settled.
pub fn law_sessions()
    ensures { LawSessions }
{}

/// In every world that moves of both gateways lead to, over their signed texts and ledgers, each session of either
/// gateway is in such a state, and whatever moves next, its deal goes on by one step of the deal machine or not at all:
/// so its deals are a run of the machine from the first one on. Texts may be lost, repeated and reordered, and gateways
/// may stop: only a text that was said is ever taken.
pub fn law_safety()
    ensures safe { LawSafety }
    ensures runs { SessionsRun }
    ensures from_the_first { SessionsRunFromTheFirst }
{}

/// Each ending of a session is reached by moves from the beginning, wherever the amounts of both ledgers allow it: a
/// committed transfer, one that either side aborts, one whose lock or mint is refused, and those that a round of
/// recovery ends after a lost message and a stop: the proposal, a message of the origin, or one of the recipient.
pub fn law_endings()
    ensures { LawEndings }
{}

/// What no move does: burn before the recipient is ready, take a text that its maker's chain doesn't hold, say a message
/// of the peer's, one of another chain than its own or an update of more than two messages, answer on an unknown session
/// that the peer didn't ask for, or begin a session past the bound of each role.
pub fn law_limits()
    ensures { LawLimits }
{}

/// In every world that moves of both gateways lead to, and of every asset: what is free on both ledgers, over all
/// owners and all sessions of both directions, is at most what both ledgers were founded with, and just that wherever
/// every begun session is settled.
pub fn law_total()
    ensures { LawTotal }
{}

/// In every world that moves of both gateways lead to, the records of each side are a log, so that no opening refuses
/// the journal of an honest gateway, and each text that was said stands in its sender's records. Each list of moves of
/// one side leads on to such a world. Whoever sent a text knows its session, but for the answer that it doesn't, to a
/// peer that does; there is room for each session that the peer has begun; and no text is too long to be heard.
pub fn law_kept()
    ensures logs { LogsAreKept }
    ensures said { BagWasSaid }
    ensures moves { MovesReach }
    ensures sender { SenderKnows }
    ensures room { RoomLeft }
    ensures short { SaidIsShort }
{}

/// In every world that moves of both gateways lead to, the due work of each session that a side's records name is in
/// order, and its moves are moves: so they lead on to such a world. The same of whatever an operator asks of a gateway,
/// and of whatever it hears of the peer, a message that the bag holds or one that an update carries: the call is refused,
/// or its moves are moves and it has an answer.
pub fn law_work()
    ensures due { WorkMoves }
    ensures operators { OperatorsRunsMove }
    ensures heard { HeardRunsMove }
{}

/// In every world that moves of both gateways lead to, a text that a network can hand over to its receiver, one of the
/// bag or an entry of an update there, is refused only where it is a recovery message that is out of date: it tells of a
/// chain that has grown since, its entry doesn't fit the chain any more, or it says that a round is over of which the
/// receiver lacks the last message. A message of a chain is never refused, and no honest text for its address, for its
/// session, for a link, or for want of room.
pub fn law_honest()
    ensures taken { HonestIsTaken }
{}

/// Any list of calls of both gateways leads from such a world to another one: what operators ask, of sessions that begin
/// those of their gateway's name alone; messages that a network can hand over; and texts that are no message's. Each call
/// is whole or stops after some of its moves. Along them the deal of each session is a run of the deal machine. So from
/// ledgers as they were founded both gateways are safe after any such list, and the sums of every asset hold.
pub fn law_runs()
    ensures reach { EventsReach }
    ensures deals { EventsRunDeals }
    ensures safe { EventsAreSafe }
    ensures totals { EventsKeepTotals }
{}

/// What holds of each call, on any side: the records and the entry of every other session stay, also where the call is
/// stopped; and it says its answer alone, after all else that it does. Where the records are a log, whoever the peer is
/// and whatever the ledger answers, a text that it answers was said, by the records after the call: it is one of a chain,
/// or a recovery message of the first texts of one, or says that the gateway knows nothing of a session. In a world that
/// moves of both gateways lead to it is so ever after.
pub fn law_calls()
    ensures others { OthersStay }
    ensures says { RunsSayTheirAnswers }
    ensures said { AnswersWereSaid }
    ensures stands { AnswersStand }
{}
