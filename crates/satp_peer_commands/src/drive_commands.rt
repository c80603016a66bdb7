// The commands `start`, `resume` and `recover`.
ghost use Rattle.std.specs.Prelude.{◌≡◌, ◌≤◌, false, List};
ghost use Rattle.satp_gateway_commands.specs.AtGateway.{AtGateway};
ghost use Rattle.satp_outcome.specs.Outside.{SourceState, outside, sink, site_state, streams, wire_state};
ghost use Rattle.satp_peer_commands.specs.Driving.{RecoverWorks, ResumeWorks, StartWorks};
ghost use Rattle.satp_points.specs.States.{GateWithin, Holds, is_broken};
ghost use Rattle.satp_records.specs.declared.stored.Setup.{Setup};
ghost use Rattle.satp_sides.specs.Points.{Stored};

use crate::drive_end::{outcome_of_refusal, tell_end};
use satp_base::{SessionId, Sink, Site, Terms, Text, Wire};
use satp_drive::{drive_recover, drive_resume, drive_start};
use satp_gateway::Gateway;
use satp_gateway_commands::open_at;
use satp_outcome::Outcome;
use std::alloc::Global;

/// Starts a session of the gateway in a directory, and drives it over a connection to its peer.
///
/// After the ends of the opening, in this order: `Place` with `Exists` where a record names the session, and with `Full` where 2,048 were started here, before the wire is called; then how the drive ended. `Done` comes if, and only if, the drive ended
/// as committed and its line was printed, and `RolledBack` if, and only if, it ended as rolled back and its line was printed. The line has the number of messages. `Peer` comes with `Wire` where a call on the wire failed, and else for
/// what the peer answered; `Place` with `Site` where a call on the site failed; and `Memory` may come at any point.
///
/// `OutputFailed` comes where the line isn't printed, in place of `Done` and `RolledBack`, and undoes nothing.
pub fn start<S: Site, W: Wire, K: Sink>(
    alloc: Global,
    dir: &Text,
    number: u32,
    terms: &Terms,
    site: &mut S,
    wire: &mut W,
    out: &mut K,
) -> Outcome
    requires failed { K.has_failed out.old ≡ false }
    requires closed { W.is_open wire.old ≡ false }
    requires number { 1 ≤ number }
    ensures rule { (input : SourceState) → AtGateway dir.now (StartWorks number terms.now)
        (outside (streams input (sink K.faults K.taken K.has_failed out.old)) (site_state S.faults S.told S.book site.old) (wire_state W.faults W.told W.listens W.is_open wire.old))
        (outside (streams input (sink K.faults K.taken K.has_failed out.new)) (site_state S.faults S.told S.book site.new) (wire_state W.faults W.told W.listens W.is_open wire.new))
        result }
    ensures site_beside { S.beside site.old site.new }
    ensures wire_beside { W.beside wire.old wire.new }
{
    match open_at(alloc, dir, site) {
        Ok(mut gateway) => start_at(alloc, &mut gateway, number, terms, site, wire, out),
        Err(outcome) => outcome,
    }
}

/// Starts a session of an open gateway.
fn start_at<S: Site, W: Wire, K: Sink>(
    alloc: Global,
    gateway: &mut Gateway,
    number: u32,
    terms: &Terms,
    site: &mut S,
    wire: &mut W,
    out: &mut K,
) -> Outcome
    requires failed { K.has_failed out.old ≡ false }
    requires closed { W.is_open wire.old ≡ false }
    requires number { 1 ≤ number }
    requires holds { (setup : Setup) × (xs : List Stored) × Holds gateway.old setup xs }
    requires whole { is_broken gateway.old ≡ false }
    requires within { GateWithin gateway.old (S.told site.old) }
    ensures works { (input : SourceState) → StartWorks number terms.now gateway.old
        (outside (streams input (sink K.faults K.taken K.has_failed out.old)) (site_state S.faults S.told S.book site.old) (wire_state W.faults W.told W.listens W.is_open wire.old))
        (outside (streams input (sink K.faults K.taken K.has_failed out.new)) (site_state S.faults S.told S.book site.new) (wire_state W.faults W.told W.listens W.is_open wire.new))
        result }
    ensures site_beside { S.beside site.old site.new }
    ensures wire_beside { W.beside wire.old wire.new }
{
    let session = SessionId {
        gateway: gateway.setup().name,
        number,
    };
    match drive_start(alloc, gateway, site, wire, number, terms) {
        Ok(driven) => tell_end(session, driven, out),
        Err(refused) => outcome_of_refusal(session, refused),
    }
}

/// Does the due work of a session of the gateway in a directory, and drives it over a connection to its peer, from the last text of its chain on.
///
/// Where that work makes the chain whole, or it was, the wire isn't called.
///
/// After the ends of the opening, in this order: `Place` with `NoSession` where no record names the session, before the wire is called; then how the drive ended. `Done` comes if, and only if, the drive ended
/// as committed and its line was printed, and `RolledBack` if, and only if, it ended as rolled back and its line was printed. The line has the number of messages. `Peer` comes with `Wire` where a call on the wire failed, and else for
/// what the peer answered; `Place` with `Site` where a call on the site failed; and `Memory` may come at any point.
///
/// `OutputFailed` comes where the line isn't printed, in place of `Done` and `RolledBack`, and undoes nothing.
pub fn resume<S: Site, W: Wire, K: Sink>(
    alloc: Global,
    dir: &Text,
    session: SessionId,
    site: &mut S,
    wire: &mut W,
    out: &mut K,
) -> Outcome
    requires failed { K.has_failed out.old ≡ false }
    requires closed { W.is_open wire.old ≡ false }
    ensures rule { (input : SourceState) → AtGateway dir.now (ResumeWorks session)
        (outside (streams input (sink K.faults K.taken K.has_failed out.old)) (site_state S.faults S.told S.book site.old) (wire_state W.faults W.told W.listens W.is_open wire.old))
        (outside (streams input (sink K.faults K.taken K.has_failed out.new)) (site_state S.faults S.told S.book site.new) (wire_state W.faults W.told W.listens W.is_open wire.new))
        result }
    ensures site_beside { S.beside site.old site.new }
    ensures wire_beside { W.beside wire.old wire.new }
{
    match open_at(alloc, dir, site) {
        Ok(mut gateway) => resume_at(alloc, &mut gateway, session, site, wire, out),
        Err(outcome) => outcome,
    }
}

/// Resumes a session of an open gateway.
fn resume_at<S: Site, W: Wire, K: Sink>(
    alloc: Global,
    gateway: &mut Gateway,
    session: SessionId,
    site: &mut S,
    wire: &mut W,
    out: &mut K,
) -> Outcome
    requires failed { K.has_failed out.old ≡ false }
    requires closed { W.is_open wire.old ≡ false }
    requires holds { (setup : Setup) × (xs : List Stored) × Holds gateway.old setup xs }
    requires whole { is_broken gateway.old ≡ false }
    requires within { GateWithin gateway.old (S.told site.old) }
    ensures works { (input : SourceState) → ResumeWorks session gateway.old
        (outside (streams input (sink K.faults K.taken K.has_failed out.old)) (site_state S.faults S.told S.book site.old) (wire_state W.faults W.told W.listens W.is_open wire.old))
        (outside (streams input (sink K.faults K.taken K.has_failed out.new)) (site_state S.faults S.told S.book site.new) (wire_state W.faults W.told W.listens W.is_open wire.new))
        result }
    ensures site_beside { S.beside site.old site.new }
    ensures wire_beside { W.beside wire.old wire.new }
{
    match drive_resume(alloc, gateway, site, wire, session) {
        Ok(driven) => tell_end(session, driven, out),
        Err(refused) => outcome_of_refusal(session, refused),
    }
}

/// Begins a recovery round of a session of the gateway in a directory, and drives it over a connection to its peer.
///
/// After the ends of the opening, in this order: `Place` with `NoSession` where no record names the session, before the wire is called; then how the drive ended. `Done` comes if, and only if, the drive ended
/// as committed and its line was printed, and `RolledBack` if, and only if, it ended as rolled back and its line was printed. The line has the number of messages. `Peer` comes with `Wire` where a call on the wire failed, and else for
/// what the peer answered; `Place` with `Site` where a call on the site failed; and `Memory` may come at any point.
///
/// `OutputFailed` comes where the line isn't printed, in place of `Done` and `RolledBack`, and undoes nothing.
pub fn recover<S: Site, W: Wire, K: Sink>(
    alloc: Global,
    dir: &Text,
    session: SessionId,
    site: &mut S,
    wire: &mut W,
    out: &mut K,
) -> Outcome
    requires failed { K.has_failed out.old ≡ false }
    requires closed { W.is_open wire.old ≡ false }
    ensures rule { (input : SourceState) → AtGateway dir.now (RecoverWorks session)
        (outside (streams input (sink K.faults K.taken K.has_failed out.old)) (site_state S.faults S.told S.book site.old) (wire_state W.faults W.told W.listens W.is_open wire.old))
        (outside (streams input (sink K.faults K.taken K.has_failed out.new)) (site_state S.faults S.told S.book site.new) (wire_state W.faults W.told W.listens W.is_open wire.new))
        result }
    ensures site_beside { S.beside site.old site.new }
    ensures wire_beside { W.beside wire.old wire.new }
{
    match open_at(alloc, dir, site) {
        Ok(mut gateway) => recover_at(alloc, &mut gateway, session, site, wire, out),
        Err(outcome) => outcome,
    }
}

/// Recovers a session of an open gateway.
fn recover_at<S: Site, W: Wire, K: Sink>(
    alloc: Global,
    gateway: &mut Gateway,
    session: SessionId,
    site: &mut S,
    wire: &mut W,
    out: &mut K,
) -> Outcome
    requires failed { K.has_failed out.old ≡ false }
    requires closed { W.is_open wire.old ≡ false }
    requires holds { (setup : Setup) × (xs : List Stored) × Holds gateway.old setup xs }
    requires whole { is_broken gateway.old ≡ false }
    requires within { GateWithin gateway.old (S.told site.old) }
    ensures works { (input : SourceState) → RecoverWorks session gateway.old
        (outside (streams input (sink K.faults K.taken K.has_failed out.old)) (site_state S.faults S.told S.book site.old) (wire_state W.faults W.told W.listens W.is_open wire.old))
        (outside (streams input (sink K.faults K.taken K.has_failed out.new)) (site_state S.faults S.told S.book site.new) (wire_state W.faults W.told W.listens W.is_open wire.new))
        result }
    ensures site_beside { S.beside site.old site.new }
    ensures wire_beside { W.beside wire.old wire.new }
{
    match drive_recover(alloc, gateway, site, wire, session) {
        Ok(driven) => tell_end(session, driven, out),
        Err(refused) => outcome_of_refusal(session, refused),
    }
}
