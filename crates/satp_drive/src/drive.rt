// The three drives.
ghost use Rattle.std.specs.Prelude.{◌≡◌, ◌≢◌, ◌≤◌, false, true, List, IfOk, OnErr};
ghost use Rattle.satp_base.specs.declared.address.Address.{Address as TheAddress};
ghost use Rattle.satp_base.specs.declared.session.SessionId.{SessionId as TheSession};
ghost use Rattle.satp_points.specs.States.{GateWithin, Holds, is_broken};
ghost use Rattle.satp_records.specs.declared.stored.Setup.{Setup as TheSetup};
ghost use Rattle.satp_sides.specs.Calls.{Rescues, Starts, Works};
ghost use Rattle.satp_sides.specs.Points.{Stored};
ghost use Rattle.satp_drive.specs.Calling.{standing};
ghost use Rattle.satp_drive.specs.Conversing.{Connected, Dials};
ghost use Rattle.satp_drive.specs.Drives.{EndCounts};
ghost use Rattle.satp_drive.specs.Driving.{DriveAnswers, IsNamed, IsPeers, SiteCounts, WireCounts};
ghost use Rattle.satp_drive.specs.declared.driven.DriveEnd.TheVariants.{Site as SiteEnd, Wire as WireEnd};
ghost use Rattle.satp_drive.specs.declared.turn.Turn.TheVariants.{Posts};

use crate::driven::{DriveEnd, Driven};
use crate::talk::{Course, talk};
use crate::turn::{Turn, after_reply};
use satp_base::{SessionId, Site, Terms, Text, Wire};
use satp_gateway::{Gateway, Refused};
use satp_http::Responses;
use std::alloc::Global;

/// Starts a session of the gateway's own name, and drives it over a connection to the peer.
///
/// The number is at least 1. The refusals are those of `Gateway::start`, and leave the wire alone. Then it connects once, posts the
/// proposal, and one text after each answer, at most 16 in all, and shuts the connection.
pub fn drive_start<S: Site, W: Wire>(
    alloc: Global,
    gateway: &mut Gateway,
    site: &mut S,
    wire: &mut W,
    number: u32,
    terms: &Terms,
) -> Result<Driven, Refused>
    requires number { 1 ≤ number }
    requires closed { W.is_open wire.old ≡ false }
    requires within { is_broken gateway.old ≡ false → GateWithin gateway.old (S.told site.old) }
    ensures drives { (s : TheSession) × (at : TheAddress) × (s.number ≡ number) × ((setup : TheSetup) (xs : List Stored) → Holds gateway.old setup xs → s.gateway ≡ setup.name) × IsPeers gateway.old at
        × DriveAnswers (Starts s terms.now) at (standing gateway.old (S.told site.old) (S.book site.old) (S.faults site.old)) (standing gateway.new (S.told site.new) (S.book site.new) (S.faults site.new)) (W.told wire.old) (W.told wire.new) (W.faults wire.old) (W.faults wire.new) result }
    ensures refused { OnErr result (wire.new ≡ wire.old) }
    ensures shut { (W.is_open wire.new ≡ false) × (W.listens wire.new ≡ W.listens wire.old) }
    ensures within { is_broken gateway.new ≡ false → GateWithin gateway.new (S.told site.new) }
    ensures site_beside { S.beside site.old site.new }
    ensures wire_beside { W.beside wire.old wire.new }
    ensures site_counts { SiteCounts (S.faults site.old) (S.faults site.new) result }
    ensures wire_counts { WireCounts (W.faults wire.old) (W.faults wire.new) result }
    ensures named { IfOk result (λ driven. IsNamed driven.end) }
{
    let course = Course {
        session: own_session(gateway, number),
        at: gateway.setup().at,
    };
    let text = gateway.start(alloc, site, number, terms)?;
    Ok(dial(alloc, gateway, site, wire, course, false, text))
}

/// Does the due work of a session, and drives it over a connection to the peer, from the last text of its chain on.
///
/// The refusals are those of `Gateway::work`, and leave the wire alone. Where the chain is whole it posts nothing, and doesn't connect.
/// Else it connects once, posts that text, and one text after each answer, at most 16 in all, and shuts the connection.
pub fn drive_resume<S: Site, W: Wire>(
    alloc: Global,
    gateway: &mut Gateway,
    site: &mut S,
    wire: &mut W,
    session: SessionId,
) -> Result<Driven, Refused>
    requires closed { W.is_open wire.old ≡ false }
    requires within { is_broken gateway.old ≡ false → GateWithin gateway.old (S.told site.old) }
    ensures drives { (at : TheAddress) × IsPeers gateway.old at
        × DriveAnswers (Works session) at (standing gateway.old (S.told site.old) (S.book site.old) (S.faults site.old)) (standing gateway.new (S.told site.new) (S.book site.new) (S.faults site.new)) (W.told wire.old) (W.told wire.new) (W.faults wire.old) (W.faults wire.new) result }
    ensures refused { OnErr result (wire.new ≡ wire.old) }
    ensures shut { (W.is_open wire.new ≡ false) × (W.listens wire.new ≡ W.listens wire.old) }
    ensures within { is_broken gateway.new ≡ false → GateWithin gateway.new (S.told site.new) }
    ensures site_beside { S.beside site.old site.new }
    ensures wire_beside { W.beside wire.old wire.new }
    ensures site_counts { SiteCounts (S.faults site.old) (S.faults site.new) result }
    ensures wire_counts { WireCounts (W.faults wire.old) (W.faults wire.new) result }
    ensures named { IfOk result (λ driven. IsNamed driven.end) }
{
    let course = Course {
        session,
        at: gateway.setup().at,
    };
    let reply = gateway.work(alloc, site, session)?;
    match after_reply(alloc, gateway, session, false, reply) {
        Turn::Posts { text, owed } => Ok(dial(alloc, gateway, site, wire, course, owed, text)),
        Turn::Ends { end } => Ok(Driven { end, messages: 0 }),
    }
}

/// Begins a recovery round of a session, and drives it over a connection to the peer.
///
/// The refusals are those of `Gateway::rescue`, and leave the wire alone. Then it connects once, posts `recover`, and one text after
/// each answer, `recover-success` once the chain is whole, at most 16 in all, and shuts the connection.
pub fn drive_recover<S: Site, W: Wire>(
    alloc: Global,
    gateway: &mut Gateway,
    site: &mut S,
    wire: &mut W,
    session: SessionId,
) -> Result<Driven, Refused>
    requires closed { W.is_open wire.old ≡ false }
    requires within { is_broken gateway.old ≡ false → GateWithin gateway.old (S.told site.old) }
    ensures drives { (at : TheAddress) × IsPeers gateway.old at
        × DriveAnswers (Rescues session) at (standing gateway.old (S.told site.old) (S.book site.old) (S.faults site.old)) (standing gateway.new (S.told site.new) (S.book site.new) (S.faults site.new)) (W.told wire.old) (W.told wire.new) (W.faults wire.old) (W.faults wire.new) result }
    ensures refused { OnErr result (wire.new ≡ wire.old) }
    ensures shut { (W.is_open wire.new ≡ false) × (W.listens wire.new ≡ W.listens wire.old) }
    ensures within { is_broken gateway.new ≡ false → GateWithin gateway.new (S.told site.new) }
    ensures site_beside { S.beside site.old site.new }
    ensures wire_beside { W.beside wire.old wire.new }
    ensures site_counts { SiteCounts (S.faults site.old) (S.faults site.new) result }
    ensures wire_counts { WireCounts (W.faults wire.old) (W.faults wire.new) result }
    ensures named { IfOk result (λ driven. IsNamed driven.end) }
{
    let course = Course {
        session,
        at: gateway.setup().at,
    };
    let text = gateway.rescue(alloc, site, session)?;
    Ok(dial(alloc, gateway, site, wire, course, true, text))
}

/// The session of this number and of the gateway's own name.
fn own_session(gateway: &Gateway, number: u32) -> SessionId
    requires { 1 ≤ number }
    ensures number { result.number ≡ number }
    ensures gateway { (setup : TheSetup) (xs : List Stored) → Holds gateway.now setup xs → result.gateway ≡ setup.name }
{
    SessionId {
        gateway: gateway.setup().name,
        number,
    }
}

/// Connects to the peer, posts a text and then one after each answer, and shuts the connection.
fn dial<S: Site, W: Wire>(
    alloc: Global,
    gateway: &mut Gateway,
    site: &mut S,
    wire: &mut W,
    course: Course,
    owed: bool,
    text: Text,
) -> Driven
    requires closed { W.is_open wire.old ≡ false }
    requires whole { is_broken gateway.old ≡ false }
    requires within { GateWithin gateway.old (S.told site.old) }
    ensures dials { Dials course.at course.session (Posts text owed) (standing gateway.old (S.told site.old) (S.book site.old) (S.faults site.old)) (standing gateway.new (S.told site.new) (S.book site.new) (S.faults site.new)) (W.told wire.old) (W.told wire.new) (W.faults wire.old) (W.faults wire.new) result }
    ensures shut { (W.is_open wire.new ≡ false) × (W.listens wire.new ≡ W.listens wire.old) }
    ensures within { is_broken gateway.new ≡ false → GateWithin gateway.new (S.told site.new) }
    ensures site_beside { S.beside site.old site.new }
    ensures wire_beside { W.beside wire.old wire.new }
    ensures site_counts { EndCounts SiteEnd (S.faults site.old) (S.faults site.new) result.end }
    ensures wire_counts { EndCounts WireEnd (W.faults wire.old) (W.faults wire.new) result.end }
    ensures named { IsNamed result.end }
{
    if let Err(_) = wire.connect(&course.at) {
        return Driven {
            end: DriveEnd::Wire,
            messages: 0,
        };
    }
    let driven = converse(alloc, gateway, site, wire, course, owed, text);
    wire.shut();
    driven
}

/// Takes the memory for answers, and posts a text and then one after each answer.
fn converse<S: Site, W: Wire>(
    alloc: Global,
    gateway: &mut Gateway,
    site: &mut S,
    wire: &mut W,
    course: Course,
    owed: bool,
    text: Text,
) -> Driven
    requires open { W.is_open wire.old ≡ true }
    requires whole { is_broken gateway.old ≡ false }
    requires within { GateWithin gateway.old (S.told site.old) }
    ensures connected { Connected course.at course.session (Posts text owed) (standing gateway.old (S.told site.old) (S.book site.old) (S.faults site.old)) (standing gateway.new (S.told site.new) (S.book site.new) (S.faults site.new)) (W.told wire.old) (W.told wire.new) (W.faults wire.old) (W.faults wire.new) result }
    ensures listens { W.listens wire.new ≡ W.listens wire.old }
    ensures within { is_broken gateway.new ≡ false → GateWithin gateway.new (S.told site.new) }
    ensures site_beside { S.beside site.old site.new }
    ensures wire_beside { W.beside wire.old wire.new }
    ensures site_counts { EndCounts SiteEnd (S.faults site.old) (S.faults site.new) result.end }
    ensures wire_counts { EndCounts WireEnd (W.faults wire.old) (W.faults wire.new) result.end }
    ensures named { IsNamed result.end }
{
    let Ok(mut responses) = Responses::new(alloc) else {
        return Driven {
            end: DriveEnd::Memory,
            messages: 0,
        };
    };
    talk(
        alloc,
        gateway,
        site,
        wire,
        &mut responses,
        course,
        owed,
        text,
    )
}
