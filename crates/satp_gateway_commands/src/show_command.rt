// The command `show`.
ghost use Rattle.std.specs.Prelude.{◌≡◌, false};
ghost use Rattle.satp_gateway_commands.specs.AtGateway.{AtGateway};
ghost use Rattle.satp_gateway_commands.specs.Showing.{ShowWorks};
ghost use Rattle.satp_outcome.specs.Outside.{SourceState, WireState, outside, sink, site_state, streams};

use crate::opening::open_at;
use crate::show_lines::show_lines;
use satp_base::{Memory, SessionId, Sink, SinkFault, Site, Text};
use satp_gateway::Gateway;
use satp_outcome::{Outcome, PlaceEnd, say};
use std::alloc::Global;

/// Prints a session of the gateway in a directory: its two sides' terms, its entry in the ledger, what was decided, the messages of its chain, and how far it has come.
///
/// After the opening it makes one call on the site, a look at the session's entry, and none where no record names the session: `NoSession`.
pub fn show<S: Site, K: Sink>(
    alloc: Global,
    dir: &Text,
    session: SessionId,
    site: &mut S,
    out: &mut K,
) -> Outcome
    requires failed { K.has_failed out.old ≡ false }
    ensures rule { (input : SourceState) (wire : WireState) → AtGateway dir.now (ShowWorks session)
        (outside (streams input (sink K.faults K.taken K.has_failed out.old)) (site_state S.faults S.told S.book site.old) wire)
        (outside (streams input (sink K.faults K.taken K.has_failed out.new)) (site_state S.faults S.told S.book site.new) wire)
        result }
    ensures beside { S.beside site.old site.new }
{
    match open_at(alloc, dir, site) {
        Ok(gateway) => show_session(alloc, &gateway, session, site, out),
        Err(outcome) => outcome,
    }
}

/// Prints a session of an open gateway.
fn show_session<S: Site, K: Sink>(
    alloc: Global,
    gateway: &Gateway,
    session: SessionId,
    site: &mut S,
    out: &mut K,
) -> Outcome
    requires failed { K.has_failed out.old ≡ false }
    ensures works { (input : SourceState) (wire : WireState) → ShowWorks session gateway.now
        (outside (streams input (sink K.faults K.taken K.has_failed out.old)) (site_state S.faults S.told S.book site.old) wire)
        (outside (streams input (sink K.faults K.taken K.has_failed out.new)) (site_state S.faults S.told S.book site.new) wire)
        result }
    ensures beside { S.beside site.old site.new }
{
    let Some(view) = gateway.show(session) else {
        return Outcome::Place(PlaceEnd::NoSession { session });
    };
    let Ok(entry) = site.look(session) else {
        return Outcome::Place(PlaceEnd::Site);
    };
    let lines = match show_lines(alloc, session, &view, entry) {
        Ok(lines) => lines,
        Err(Memory) => return Outcome::Memory,
    };
    match say(out, lines.bytes()) {
        Ok(()) => Outcome::Done,
        Err(SinkFault) => Outcome::OutputFailed,
    }
}
