//! A gateway at a site in memory that stops, or whose gateway is broken, goes as the bench of a drill says.
//!
//! The laws of this crate stand over definitions alone. They make no call: what each says is its contract.
#![tactic(auto)]

ghost use Rattle.satp_bench_laws.specs.Laws.{CallsGoByBench, OpeningsWork, StopsGoByBench};
ghost use Rattle.satp_bench_laws.specs.Texts.{BrokenStays, TextsAreCalls};

/// A call of a gateway at a site in memory leads to the world that its bench in a drill leads to, and is answered as the bench answers it. So it is where no
/// call of the site is named and the site answers no fault: without a stop, before one, and where the gateway is broken. The events that were made are taken
/// from those that are left until the stop.
///
/// A stop that comes into the call breaks the gateway at the move that the bench says, and what its pick leaves of that move's append is what the bench says that
/// stands. It is supposed that the call's moves have more events than were left: a site's contract doesn't say that a call which reaches the stop succeeds.
pub fn law_calls()
    ensures whole { CallsGoByBench }
    ensures stopped { StopsGoByBench }
{}

/// A site that begins again after a stop, or after a call on it failed, and a gateway that is opened there stand in the world of the bench, and nothing is in
/// their way any more.
pub fn law_openings()
    ensures { OpeningsWork }
{}

/// A text that may come to a gateway as some message is heard as this message, so that what is said of calls holds of it. A broken gateway answers any text that
/// it is broken, as its bench does.
pub fn law_texts()
    ensures calls { TextsAreCalls }
    ensures broken { BrokenStays }
{}
