//! Calls on a gateway.

ghost use Rattle.std.specs.Prelude.{◌≡◌, false};
ghost use Rattle.satp_points.specs.States.{GateWithin, is_broken};

use satp_base::{SessionId, Site, Terms, Text};
use satp_gateway::{Gateway, Refused, Reply};
use std::alloc::Global;

/// A call on a gateway.
#[derive(Clone, Copy)]
pub enum Asked<'a> {
    Start(SessionId, Terms),
    Work(SessionId),
    Abort(SessionId),
    Rescue(SessionId),
    /// Nothing is said where the chain isn't whole.
    Closing(SessionId),
    Hear(&'a [u8]),
}

/// Makes a call, and gives the text that it says.
pub fn ask<S: Site>(
    alloc: Global,
    gateway: &mut Gateway,
    site: &mut S,
    asked: Asked<'_>,
) -> Result<Option<Text>, Refused>
    requires within { is_broken gateway.old ≡ false → GateWithin gateway.old (S.told site.old) }
    ensures within { is_broken gateway.new ≡ false → GateWithin gateway.new (S.told site.new) }
{
    match asked {
        Asked::Start(session, terms) => start(alloc, gateway, site, session, terms),
        Asked::Work(session) => gateway.work(alloc, site, session),
        Asked::Abort(session) => abort(alloc, gateway, site, session),
        Asked::Rescue(session) => rescue(alloc, gateway, site, session),
        Asked::Closing(session) => closing(alloc, gateway, session),
        Asked::Hear(body) => hear(alloc, gateway, site, body),
    }
}

fn start<S: Site>(
    alloc: Global,
    gateway: &mut Gateway,
    site: &mut S,
    session: SessionId,
    terms: Terms,
) -> Result<Option<Text>, Refused>
    requires within { is_broken gateway.old ≡ false → GateWithin gateway.old (S.told site.old) }
    ensures within { is_broken gateway.new ≡ false → GateWithin gateway.new (S.told site.new) }
{
    let text = gateway.start(alloc, site, session.number, &terms)?;
    Ok(Some(text))
}

fn abort<S: Site>(
    alloc: Global,
    gateway: &mut Gateway,
    site: &mut S,
    session: SessionId,
) -> Result<Option<Text>, Refused>
    requires within { is_broken gateway.old ≡ false → GateWithin gateway.old (S.told site.old) }
    ensures within { is_broken gateway.new ≡ false → GateWithin gateway.new (S.told site.new) }
{
    gateway.abort(alloc, site, session)?;
    Ok(None)
}

fn rescue<S: Site>(
    alloc: Global,
    gateway: &mut Gateway,
    site: &mut S,
    session: SessionId,
) -> Result<Option<Text>, Refused>
    requires within { is_broken gateway.old ≡ false → GateWithin gateway.old (S.told site.old) }
    ensures within { is_broken gateway.new ≡ false → GateWithin gateway.new (S.told site.new) }
{
    let text = gateway.rescue(alloc, site, session)?;
    Ok(Some(text))
}

fn closing(alloc: Global, gateway: &Gateway, session: SessionId) -> Result<Option<Text>, Refused> {
    match gateway.show(session) {
        Some(view) if view.tale.whole() => match gateway.closing(alloc, session) {
            Ok(text) => Ok(Some(text)),
            Err(_) => Err(Refused::Memory),
        },
        _ => Ok(None),
    }
}

fn hear<S: Site>(
    alloc: Global,
    gateway: &mut Gateway,
    site: &mut S,
    body: &[u8],
) -> Result<Option<Text>, Refused>
    requires within { is_broken gateway.old ≡ false → GateWithin gateway.old (S.told site.old) }
    ensures within { is_broken gateway.new ≡ false → GateWithin gateway.new (S.told site.new) }
{
    match gateway.handle(alloc, site, body)? {
        Reply::Message(text) => Ok(Some(text)),
        Reply::Nothing => Ok(None),
    }
}
