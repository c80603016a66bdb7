// How a command ends that drove a session.
ghost use Rattle.std.specs.Prelude.{◌≡◌, ◌++◌, false, option_map};
ghost use Rattle.satp_outcome.specs.Outside.{Says, sink};
ghost use Rattle.satp_peer_commands.specs.Driving.{MayRefuse, TellsEnd, end_line, outcome_of_end, outcome_of_refusal, way_of};

use satp_base::{SessionId, Sink, SinkFault};
use satp_drive::{DriveEnd, Driven};
use satp_outcome::{Outcome, PeerEnd, PlaceEnd, say_numbered, say_session};
use satp_points::Refused;

/// Prints how the session ended, if it did, and says how the command ends.
pub(crate) fn tell_end<K: Sink>(session: SessionId, driven: Driven, out: &mut K) -> Outcome
    requires failed { K.has_failed out.old ≡ false }
    ensures { TellsEnd session driven (sink K.faults K.taken K.has_failed out.old) (sink K.faults K.taken K.has_failed out.new) result }
{
    let Some(way) = way_of(driven.end) else {
        return outcome_of_end(driven.end);
    };
    match say_end(session, way, driven.messages, out) {
        Ok(()) => outcome_of_end(driven.end),
        Err(SinkFault) => Outcome::OutputFailed,
    }
}

/// How a session ended, if it did.
fn way_of(end: DriveEnd) -> Option<&'static [u8]>
    ensures { option_map (λ way. way.now) result ≡ way_of end }
{
    match end {
        DriveEnd::Committed => Some(b" committed in "),
        DriveEnd::RolledBack => Some(b" rolled back in "),
        _ => None,
    }
}

/// Prints how a session ended, and after how many messages.
fn say_end<K: Sink>(
    session: SessionId,
    way: &[u8],
    messages: u32,
    out: &mut K,
) -> Result<(), SinkFault>
    requires failed { K.has_failed out.old ≡ false }
    ensures { Says (end_line session way.now messages) (sink K.faults K.taken K.has_failed out.old) (sink K.faults K.taken K.has_failed out.new) result }
{
    match say_session(out, b"", session, way) {
        Ok(()) => say_numbered(out, b"", messages as u64, b" messages\n"),
        Err(fault) => Err(fault),
    }
}

/// How a command ends whose drive ended so, if its line is printed.
fn outcome_of_end(end: DriveEnd) -> Outcome
    ensures { result ≡ outcome_of_end end }
{
    match end {
        DriveEnd::Committed => Outcome::Done,
        DriveEnd::RolledBack => Outcome::RolledBack,
        DriveEnd::Wire => Outcome::Peer(PeerEnd::Wire),
        DriveEnd::Early => Outcome::Peer(PeerEnd::Early),
        DriveEnd::Status { code } => Outcome::Peer(PeerEnd::Status { code }),
        DriveEnd::NotHttp { .. } => Outcome::Peer(PeerEnd::NotHttp),
        DriveEnd::Silent => Outcome::Peer(PeerEnd::Silent),
        DriveEnd::Refused { fault } => Outcome::Peer(PeerEnd::Refused(fault)),
        DriveEnd::Turns => Outcome::Peer(PeerEnd::Turns),
        DriveEnd::Site => Outcome::Place(PlaceEnd::Site),
        DriveEnd::Memory => Outcome::Memory,
    }
}

/// How a command ends where the first call of its drive is refused so.
pub(crate) fn outcome_of_refusal(session: SessionId, refused: Refused) -> Outcome
    requires { MayRefuse refused }
    ensures { result ≡ outcome_of_refusal session refused }
{
    match refused {
        Refused::Exists => Outcome::Place(PlaceEnd::Exists { session }),
        Refused::Full { count } => Outcome::Place(PlaceEnd::Full { count }),
        Refused::Strange { session } => Outcome::Place(PlaceEnd::NoSession { session }),
        Refused::Site => Outcome::Place(PlaceEnd::Site),
        Refused::Memory => Outcome::Memory,
        _ => unreachable!(),
    }
}
