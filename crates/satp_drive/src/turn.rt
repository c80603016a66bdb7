// What a drive does next, after a reply of the gateway or an answer of its peer.
ghost use Rattle.std.specs.Prelude.{◌≡◌, ◌≢◌, ◌≤◌, false, IfSome, List, None};
ghost use Rattle.satp_base.specs.Tales.{is_committed};
ghost use Rattle.satp_gateway.specs.Handling.{text_in};
ghost use Rattle.satp_points.specs.States.{GateWithin, Holds, is_broken};
ghost use Rattle.satp_points.specs.declared.fault.Refused.TheVariants.{Broken};
ghost use Rattle.satp_records.specs.declared.stored.Setup.{Setup as TheSetup};
ghost use Rattle.satp_sides.specs.Points.{Stored};
ghost use Rattle.satp_drive.specs.Calling.{standing};
ghost use Rattle.satp_drive.specs.Drives.{AfterAnswer, AfterReply, Handles, IfPosts, IsAnswerEnd, IsChainEnd, IsEndOf, OnEnd, TurnCounts, refusal_end, tale_in};

use crate::driven::DriveEnd;
use satp_base::{Kind, SessionId, Site, Tale, Text};
use satp_gateway::{Gateway, Refused, Reply};
use satp_http::Answered;
use std::alloc::Global;

/// What a drive does next.
#[derive(Drop)]
pub enum Turn {
    /// It posts a text, after which `recover-success` is still owed or isn't.
    Posts { text: Text, owed: bool },
    /// It ends.
    Ends { end: DriveEnd },
}

/// Whether the session of a chain with these kinds is committed.
fn is_committed(tale: &Tale) -> bool
    ensures { result ≡ is_committed tale.now }
{
    matches!(tale.last(), Some(Kind::TransferComplete))
}

/// How the session has ended; none where its chain isn't whole.
fn chain_end(gateway: &Gateway, session: SessionId) -> Option<DriveEnd>
    ensures chain { IfSome result IsChainEnd }
    ensures is { (setup : TheSetup) (xs : List Stored) → Holds gateway.now setup xs → IsEndOf (tale_in session xs) result }
{
    let Some(view) = gateway.show(session) else {
        return None;
    };
    if !view.tale.whole() {
        return None;
    }
    if is_committed(&view.tale) {
        return Some(DriveEnd::Committed);
    }
    Some(DriveEnd::RolledBack)
}

/// What follows where the gateway replies nothing.
fn unreplied(alloc: Global, gateway: &Gateway, session: SessionId, owed: bool) -> Turn
    ensures follows { AfterReply session owed gateway.now None result }
    ensures ends { OnEnd IsChainEnd result }
{
    let Some(end) = chain_end(gateway, session) else {
        return Turn::Ends {
            end: DriveEnd::Silent,
        };
    };
    if !owed {
        return Turn::Ends { end };
    }
    match gateway.closing(alloc, session) {
        Ok(text) => Turn::Posts { text, owed: false },
        Err(_) => Turn::Ends {
            end: DriveEnd::Memory,
        },
    }
}

/// What follows a reply of the gateway.
pub(crate) fn after_reply(
    alloc: Global,
    gateway: &Gateway,
    session: SessionId,
    owed: bool,
    reply: Option<Text>,
) -> Turn
    ensures follows { AfterReply session owed gateway.now reply result }
    ensures ends { OnEnd IsChainEnd result }
{
    match reply {
        Some(text) => Turn::Posts { text, owed },
        None => unreplied(alloc, gateway, session, owed),
    }
}

/// The end of a drive whose last answer the gateway refused.
fn refusal_end(fault: Refused) -> DriveEnd
    requires { fault ≢ Broken }
    ensures is { result ≡ refusal_end fault }
    ensures answer { IsAnswerEnd result }
{
    match fault {
        Refused::Site => DriveEnd::Site,
        Refused::Memory => DriveEnd::Memory,
        _ => DriveEnd::Refused { fault },
    }
}

/// The text of a reply.
fn text_of(reply: Reply) -> Option<Text>
    ensures { result ≡ text_in reply }
{
    match reply {
        Reply::Message(text) => Some(text),
        Reply::Nothing => None,
    }
}

/// Handles an answer of the peer, and says what follows.
pub(crate) fn after_answer<S: Site>(
    alloc: Global,
    gateway: &mut Gateway,
    site: &mut S,
    session: SessionId,
    owed: bool,
    answered: &Answered,
) -> Turn
    requires whole { is_broken gateway.old ≡ false }
    requires within { GateWithin gateway.old (S.told site.old) }
    ensures leads { AfterAnswer session owed (standing gateway.old (S.told site.old) (S.book site.old) (S.faults site.old)) answered.now (standing gateway.new (S.told site.new) (S.book site.new) (S.faults site.new)) result }
    ensures within { is_broken gateway.new ≡ false → GateWithin gateway.new (S.told site.new) }
    ensures whole { IfPosts result (is_broken gateway.new ≡ false) }
    ensures beside { S.beside site.old site.new }
    ensures counts { TurnCounts (S.faults site.old) (S.faults site.new) result }
    ensures ends { OnEnd IsAnswerEnd result }
{
    match answered.code {
        200 => after_text(alloc, gateway, site, session, owed, answered.body.bytes()),
        204 => unreplied(alloc, gateway, session, owed),
        code => Turn::Ends {
            end: DriveEnd::Status { code },
        },
    }
}

/// Hands a text of the peer to the gateway, and says what follows its reply.
fn after_text<S: Site>(
    alloc: Global,
    gateway: &mut Gateway,
    site: &mut S,
    session: SessionId,
    owed: bool,
    text: &[u8],
) -> Turn
    requires whole { is_broken gateway.old ≡ false }
    requires within { GateWithin gateway.old (S.told site.old) }
    ensures handles { Handles session owed text.now (standing gateway.old (S.told site.old) (S.book site.old) (S.faults site.old)) (standing gateway.new (S.told site.new) (S.book site.new) (S.faults site.new)) result }
    ensures within { is_broken gateway.new ≡ false → GateWithin gateway.new (S.told site.new) }
    ensures whole { IfPosts result (is_broken gateway.new ≡ false) }
    ensures beside { S.beside site.old site.new }
    ensures counts { TurnCounts (S.faults site.old) (S.faults site.new) result }
    ensures ends { OnEnd IsAnswerEnd result }
{
    match gateway.handle(alloc, site, text) {
        Ok(reply) => after_reply(alloc, gateway, session, owed, text_of(reply)),
        Err(fault) => Turn::Ends {
            end: refusal_end(fault),
        },
    }
}
