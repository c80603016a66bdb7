// What one side does in a command.

use crate::exchange::{Errand, Pair, exchange};
use crate::pending::SiteTrouble;
use crate::place::{Place, arm, ready, settle};
use satp_base::{LedgerCore, Memory, SessionId, Text};
use satp_gateway::{Refused, Reply};
use satp_loop::{Mail, Troubles};
use std::alloc::Global;

/// What is to go wrong in a command of a side.
#[derive(Clone, Copy)]
pub(crate) struct Wrong {
    pub(crate) own: Option<SiteTrouble>,
    pub(crate) peer: Option<SiteTrouble>,
    pub(crate) messages: Troubles,
}

/// A side drives, and then is handed once more the answer that comes twice.
pub(crate) fn drive<C: LedgerCore, D: LedgerCore>(
    alloc: Global,
    pair: Pair<C, D>,
    errand: Errand,
    wrong: Wrong,
) -> Result<Pair<C, D>, Memory> {
    let own = pair.own;
    let peer = pair.peer;
    let mut mail = pair.mail;
    mail.begin(wrong.messages);
    let own = ready(alloc, own)?;
    let own = arm(own, wrong.own)?;
    let peer = ready(alloc, peer)?;
    let peer = arm(peer, wrong.peer)?;
    let driven = exchange(alloc, Pair { own, peer, mail }, errand)?;
    finish(alloc, driven)
}

/// After a drive nothing is to go wrong any more, and the answer that comes twice is handed over once more.
fn finish<C: LedgerCore, D: LedgerCore>(
    alloc: Global,
    pair: Pair<C, D>,
) -> Result<Pair<C, D>, Memory> {
    let own = pair.own;
    let peer = pair.peer;
    let mail = pair.mail;
    let own = settle(own)?;
    let peer = settle(peer)?;
    let heard = hear_again(alloc, own, mail)?;
    let own = heard.place;
    let mail = heard.mail;
    Ok(Pair { own, peer, mail })
}

/// A side that was handed a text, and what both have said to each other.
#[derive(Drop)]
pub(crate) struct Heard<C: LedgerCore> {
    pub(crate) place: Place<C>,
    pub(crate) mail: Mail,
}

/// The answer that comes twice, if there is one, is handed over once more.
fn hear_again<C: LedgerCore>(
    alloc: Global,
    place: Place<C>,
    mail: Mail,
) -> Result<Heard<C>, Memory> {
    let mut mail = mail;
    match mail.take_again() {
        Some(text) => hand_over(alloc, ready(alloc, place)?, mail, &text),
        None => Ok(Heard { place, mail }),
    }
}

/// A side aborts a session.
#[tactic(auto, using(crate::proofs::Keeping::within_from, crate::proofs::Keeping::fits_from))]
pub(crate) fn abort<C: LedgerCore>(
    alloc: Global,
    place: Place<C>,
    session: SessionId,
    trouble: Option<SiteTrouble>,
) -> Result<Place<C>, Memory> {
    let place = arm(ready(alloc, place)?, trouble)?;
    let mut gateway = place.gateway;
    let mut site = place.site;
    let aborted = gateway.abort(alloc, &mut site, session);
    if matches!(aborted, Err(Refused::Memory)) {
        return Err(Memory);
    }
    settle(Place { gateway, site })
}

/// A side is handed the text of this number once more, if there are so many.
pub(crate) fn deliver<C: LedgerCore>(
    alloc: Global,
    place: Place<C>,
    mail: Mail,
    number: u32,
    trouble: Option<SiteTrouble>,
) -> Result<Heard<C>, Memory> {
    match copy_of(alloc, mail.text(number))? {
        Some(text) => hand_over(alloc, arm(ready(alloc, place)?, trouble)?, mail, &text),
        None => Ok(Heard { place, mail }),
    }
}

fn copy_of(alloc: Global, text: Option<&Text>) -> Result<Option<Text>, Memory> {
    match text {
        Some(text) => Ok(Some(Text::copy(alloc, text.bytes())?)),
        None => Ok(None),
    }
}

/// A side is handed a text, and what it replies is noted as sent.
#[tactic(auto, using(crate::proofs::Keeping::within_from, crate::proofs::Keeping::fits_from))]
fn hand_over<C: LedgerCore>(
    alloc: Global,
    place: Place<C>,
    mail: Mail,
    text: &Text,
) -> Result<Heard<C>, Memory> {
    let mut gateway = place.gateway;
    let mut site = place.site;
    let reply = gateway.handle(alloc, &mut site, text.bytes());
    let mail = note(mail, reply)?;
    let place = settle(Place { gateway, site })?;
    Ok(Heard { place, mail })
}

/// Notes what was replied, if it's a text.
fn note(mail: Mail, reply: Result<Reply, Refused>) -> Result<Mail, Memory> {
    let mut mail = mail;
    match reply {
        Ok(Reply::Message(text)) => mail.note(text)?,
        Ok(Reply::Nothing) => {}
        Err(Refused::Memory) => return Err(Memory),
        Err(_) => {}
    }
    Ok(mail)
}
