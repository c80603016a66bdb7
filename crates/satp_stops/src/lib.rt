//! What a stop leaves of a list of steps of a site: of appends to a journal, operations of a ledger, and the openings after it.
#![tactic(auto)]

ghost use Rattle.satp_stops.specs.Stops.{StopsRest, StepsRest, ReopenRests, ReopenEnds, StopsLeave, StepsEnd, StepsTell};

/// What a stop leaves of a list of appends and operations, at each of their events and after a failed one. The law makes no call.
///
/// `rests` and `rests_end` begin with images at rest, as an opening leaves them; `each` and `end` with images that only stand for a list. `reopened` and
/// `reopened_end` are of an opening that begins where one of these, or an opening, was stopped.
pub fn law_stops()
    ensures rests { StopsRest }
    ensures rests_end { StepsRest }
    ensures reopened { ReopenRests }
    ensures reopened_end { ReopenEnds }
    ensures each { StopsLeave }
    ensures end { StepsEnd }
    ensures told { StepsTell }
{}
