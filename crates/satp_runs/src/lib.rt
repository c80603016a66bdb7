//! What gateways at sites do, as runs of two gateways.
//!
//! The laws of this crate stand over definitions alone. They make no call: what each says is its contract.
#![tactic(auto)]

ghost use Rattle.satp_runs.specs.OneSide.{GatewaysAreSides};

/// A gateway at a site is one side of a run of two gateways, whatever its operator and the texts that come ask of it, as long as each text that
/// comes is one that a network can hand over, or no message's: what it does is a list of calls, each as it runs, and the site tells their moves
/// and no others. So whatever holds of every world that is reached holds of it.
pub fn law_one_side()
    ensures { GatewaysAreSides }
{}
