// The command `abort`.
ghost use Rattle.std.specs.Prelude.{◌≡◌, false, List};
ghost use Rattle.satp_base.specs.Tales.{is_rolled_back};
ghost use Rattle.satp_gateway_commands.specs.Aborting.{AbortWorks, EndsBack, MayRefuse, SaysBack, refused_end, said_back};
ghost use Rattle.satp_gateway_commands.specs.AtGateway.{AtGateway};
ghost use Rattle.satp_outcome.specs.Outside.{SourceState, WireState, outside, sink, site_state, streams};
ghost use Rattle.satp_points.specs.States.{GateWithin, Holds, is_broken};
ghost use Rattle.satp_records.specs.declared.stored.Setup.{Setup};
ghost use Rattle.satp_sides.specs.Points.{Stored};

use crate::opening::open_at;
use satp_base::{Kind, SessionId, Sink, SinkFault, Site, Tale, Text};
use satp_gateway::Gateway;
use satp_outcome::{Outcome, PlaceEnd, say_session};
use satp_points::Refused;
use std::alloc::Global;

/// Turns a session of the gateway in a directory back, does its due work, and prints that it is on its way back.
///
/// After the opening, in this order: `NoSession` where no record names the session, `TooLate` with the place of the message that decides it, `Memory`, and `Site` in the work.
/// Then the line is printed: a write that fails gives `OutputFailed`, and undoes nothing. It is `RolledBack` exactly where the session's chain then ends with `rollback-ack`, and `Done` else.
pub fn abort<S: Site, K: Sink>(
    alloc: Global,
    dir: &Text,
    session: SessionId,
    site: &mut S,
    out: &mut K,
) -> Outcome
    requires failed { K.has_failed out.old ≡ false }
    ensures rule { (input : SourceState) (wire : WireState) → AtGateway dir.now (AbortWorks session)
        (outside (streams input (sink K.faults K.taken K.has_failed out.old)) (site_state S.faults S.told S.book site.old) wire)
        (outside (streams input (sink K.faults K.taken K.has_failed out.new)) (site_state S.faults S.told S.book site.new) wire)
        result }
    ensures beside { S.beside site.old site.new }
{
    match open_at(alloc, dir, site) {
        Ok(mut gateway) => abort_session(alloc, &mut gateway, session, site, out),
        Err(outcome) => outcome,
    }
}

/// Turns a session of an open gateway back, and prints that.
fn abort_session<S: Site, K: Sink>(
    alloc: Global,
    gateway: &mut Gateway,
    session: SessionId,
    site: &mut S,
    out: &mut K,
) -> Outcome
    requires failed { K.has_failed out.old ≡ false }
    requires holds { (setup : Setup) × (xs : List Stored) × Holds gateway.old setup xs }
    requires whole { is_broken gateway.old ≡ false }
    requires within { GateWithin gateway.old (S.told site.old) }
    ensures works { (input : SourceState) (wire : WireState) → AbortWorks session gateway.old
        (outside (streams input (sink K.faults K.taken K.has_failed out.old)) (site_state S.faults S.told S.book site.old) wire)
        (outside (streams input (sink K.faults K.taken K.has_failed out.new)) (site_state S.faults S.told S.book site.new) wire)
        result }
    ensures beside { S.beside site.old site.new }
{
    let Some(_) = gateway.show(session) else {
        return Outcome::Place(PlaceEnd::NoSession { session });
    };
    match gateway.abort(alloc, site, session) {
        Ok(()) => say_back(gateway, session, out),
        Err(refused) => refused_end(refused),
    }
}

/// How the command ends where an abort of a named session is refused.
fn refused_end(refused: Refused) -> Outcome
    requires { MayRefuse refused }
    ensures { result ≡ refused_end refused }
{
    match refused {
        Refused::TooLate { place } => Outcome::Place(PlaceEnd::TooLate { place }),
        Refused::Site => Outcome::Place(PlaceEnd::Site),
        Refused::Memory => Outcome::Memory,
        _ => unreachable!(),
    }
}

/// Prints that a session is on its way back, and says whether it is there.
fn say_back<K: Sink>(gateway: &Gateway, session: SessionId, out: &mut K) -> Outcome
    requires failed { K.has_failed out.old ≡ false }
    ensures { SaysBack session gateway.now (sink K.faults K.taken K.has_failed out.old) (sink K.faults K.taken K.has_failed out.new) result }
{
    let back = is_back(gateway, session);
    match say_session(out, b"", session, b" back\n") {
        Ok(()) => said_back(back),
        Err(SinkFault) => Outcome::OutputFailed,
    }
}

fn said_back(back: bool) -> Outcome
    ensures { result ≡ said_back back }
{
    if back {
        Outcome::RolledBack
    } else {
        Outcome::Done
    }
}

/// Whether the session's chain ends with the acknowledgement of its rollback.
fn is_back(gateway: &Gateway, session: SessionId) -> bool
    ensures { EndsBack gateway.now session result }
{
    match gateway.show(session) {
        Some(view) => ends_back(&view.tale),
        None => false,
    }
}

fn ends_back(tale: &Tale) -> bool
    ensures { result ≡ is_rolled_back tale.now }
{
    match tale.last() {
        Some(last) => matches!(last, Kind::RollbackAck),
        None => false,
    }
}
