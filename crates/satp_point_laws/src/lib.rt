//! What holds of a gateway's calls at a site, and what a stop leaves of them.
//!
//! The laws of this crate stand over definitions alone. They make no call: what each says is its contract.
#![tactic(auto)]

ghost use Rattle.satp_points.specs.Deciding.{BrokenAnswers, DoneAnswers, RefusalAnswers};
ghost use Rattle.satp_point_laws.specs.Going.{ActBreaks, ActGoes, AppendBreaks, AppendGoes, MovesGoOn, SayingGoes};
ghost use Rattle.satp_point_laws.specs.Happening.{CallsHappen, StopsHappen};
ghost use Rattle.satp_point_laws.specs.PointLaws.{CallsKeepLogs, CallsLeavePoints, DueMayCome, PointsEnd, PointsReopen, PointsReopenEnd, PointsRest, PointsTell};

/// The records that due work stores may come, whatever the ledger answers.
pub fn law_due_records()
    ensures { DueMayCome }
{}

/// Each call keeps a log, whatever the ledger is and whatever is heard.
pub fn law_logs_kept()
    ensures { CallsKeepLogs }
{}

/// A call that is decided and then carried out answers as the call does, and so does one that its tests refuse, and one of a broken gateway.
pub fn law_decided()
    ensures done { DoneAnswers }
    ensures refused { RefusalAnswers }
    ensures broken { BrokenAnswers }
{}

/// A move that a site made leads a gateway from one point to the next, and one that failed leaves it broken.
pub fn law_points()
    ensures append { AppendGoes }
    ensures append_fails { AppendBreaks }
    ensures act { ActGoes }
    ensures act_fails { ActBreaks }
    ensures says { SayingGoes }
    ensures more { MovesGoOn }
{}

/// What a stop leaves of a list of moves: at each of their events, and after a failed one, the site stands at a point of the list, or at one and in the append after it.
///
/// `reopened` and `reopened_end` are of an opening that begins where one of these, or an opening, was stopped.
pub fn law_stops()
    ensures rests { PointsRest }
    ensures rests_end { PointsEnd }
    ensures told { PointsTell }
    ensures reopened { PointsReopen }
    ensures reopened_end { PointsReopenEnd }
{}

/// What a stop leaves of a call, whatever it answers: at each of its events, and after a failed one, the site stands at a point of the call's moves, or at one and in the append after it.
pub fn law_calls_stopped()
    ensures { CallsLeavePoints }
{}

/// What a gateway at a site does is what happens to it in a world of two gateways: a call happens, or stops after some of its moves. So whatever holds of every such world holds at the site.
pub fn law_calls_happen()
    ensures calls { CallsHappen }
    ensures stops { StopsHappen }
{}
