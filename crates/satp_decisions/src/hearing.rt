ghost use Rattle.std.specs.Prelude.{◌≡◌, IfErr, IfOk, Option};
ghost use Rattle.satp_base.specs.declared.message.Message.{Message as MessageOf};
ghost use Rattle.satp_sides.specs.Calls.{Hears, IsEntryOf, IsOwn};
ghost use Rattle.satp_points.specs.Deciding.{Decides};
ghost use Rattle.satp_decisions.specs.Tests.{DecidesMessage, HasEntry, IsHeld, IsOfTestOrMemory};

use crate::addressed::addressed;
use crate::on_chain::on_chain;
use crate::recovering::{recover, succeed, update};
use satp_base::Body;
use satp_chain::Signed;
use satp_log::Log;
use satp_points::{Decision, Refused};
use std::alloc::Global;

/// A message is heard of the peer.
///
/// In this order: `Receiver` comes where it isn't from the peer to this gateway; `Strange` where the session is of neither gateway, or is of this one and no record names it;
/// `Chain` with the verdict on a message of the chain that is neither its next nor one that it has, and `Recovery` where what the peer says of its chain in a recovery
/// round is refused; `Full` where a session would begin and 2,048 sessions were accepted. `Memory` may come once the message is rightly addressed.
pub fn message(alloc: Global, log: &Log, heard: Signed) -> Result<Decision, Refused>
    requires own { IsOwn log.now.setup.key heard.text heard.message }
    requires holds { IsHeld log.now }
    ensures decides { (e : Option MessageOf) → IsEntryOf log.now.setup.key heard.message.body e → Decides (Hears heard.message heard.text e) log.now result }
    // so there is an entry that `decides` speaks of
    ensures entry { IfOk result (λ _. HasEntry log.now.setup.key heard.message.body) }
    ensures only { IfErr result IsOfTestOrMemory }
{
    match addressed(log, &heard.message) {
        Ok(()) => by_body(alloc, log, heard),
        Err(refused) => Err(refused),
    }
}

/// A message that is rightly addressed, by its body.
fn by_body(alloc: Global, log: &Log, heard: Signed) -> Result<Decision, Refused>
    requires own { IsOwn log.now.setup.key heard.text heard.message }
    requires holds { IsHeld log.now }
    ensures decides { (e : Option MessageOf) → IsEntryOf log.now.setup.key heard.message.body e → DecidesMessage heard.message heard.text e log.now result }
    ensures entry { IfOk result (λ _. HasEntry log.now.setup.key heard.message.body) }
    ensures only { IfErr result IsOfTestOrMemory }
{
    match &heard.message.body {
        Body::Chain { .. } => (),
        Body::Recover { length, last } => return recover(alloc, log, &heard, *length, *last),
        Body::Update { length, entries } => return update(alloc, log, &heard, *length, entries),
        Body::Success { length, last } => return succeed(log, &heard, *length, *last),
    }
    on_chain(alloc, log, heard)
}
