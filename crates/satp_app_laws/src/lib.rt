//! What a run of the program comes to in a world of two gateways.
//!
//! The laws of this crate stand over definitions alone. They make no call: what each says is its contract.
#![tactic(auto)]

ghost use Rattle.satp_app_laws.specs.Lines.{RecoversSay, ResumesSay, StartsSay};
ghost use Rattle.satp_app_laws.specs.Openings.{CommandsOpen, CommandsOpenUnlessFailed};

/// A command that drives a session prints one line and has the status 0 or 12, if its gateway stands in a world that two gateways lead to, no call failed, memory was found, and
/// each text was answered with what the other gateway of that world replies.
///
/// `recover` prints `committed in` with at most eight messages where the round's outcome is a commit, and `rolled back in` where it isn't. `start` prints `committed in 11 messages` where both ledgers
/// accept the amount, and else `rolled back in` with at most as many; `resume` prints what its own chain ends with.
pub fn law_lines()
    ensures recover { RecoversSay }
    ensures start { StartsSay }
    ensures resume { ResumesSay }
{}

/// A command opens the gateway that was closed in its directory, unless a call failed or no memory was found: what it works with stands in the world in which it was closed.
pub fn law_opens()
    ensures opens { CommandsOpen }
    ensures unless_failed { CommandsOpenUnlessFailed }
{}
