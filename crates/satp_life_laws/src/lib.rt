//! The life of a gateway at its site, from its set-up on, through calls, stops and openings, as one side of a run of two gateways.
//!
//! The laws of this crate stand over definitions alone. They make no call: what each says is its contract.
#![tactic(auto)]

ghost use Rattle.satp_life_laws.specs.Life.{AgainStaysClosed, AnswersStayOpen, ClosedOpen, LeavingsClose, OpeningsStand, OpeningsStayClosed, OthersLeaveClosed, SetUpsClose, StopsClose};
ghost use Rattle.satp_life_laws.specs.Success.{SuccessesGoOn};

/// A gateway is closed after its set-up, where it is let go, and after a stop at any event of a call or a failed call: then its site keeps what its side of a world keeps, a
/// world that two gateways lead to. It stays so where the site begins again, whatever happens to the other gateway, and at each event of an opening.
pub fn law_closed()
    ensures set_up { SetUpsClose }
    ensures leaves { LeavingsClose }
    ensures stops { StopsClose }
    ensures again { AgainStaysClosed }
    ensures others { OthersLeaveClosed }
    ensures opening { OpeningsStayClosed }
{}

/// A closed gateway is opened, unless a call fails or no memory is found, and then stands in the world in which it was closed: with the record whose append was stopped, or without it.
/// It stays open while it answers what it is asked.
pub fn law_opened()
    ensures stands { OpeningsStand }
    ensures opens { ClosedOpen }
    ensures stays { AnswersStayOpen }
{}

/// After a gateway has said that a round of recovery was a success, both go on as they stood: what may happen still may, and the text may come to the other gateway.
pub fn law_success()
    ensures { SuccessesGoOn }
{}
