//! The calls of a site's ledger. No function here says what it does, so that the proofs above carry no clause of a site's.

use crate::answer::Answer;
use crate::call::Call;
use satp_base::{Amount, Genesis, Ledger, LedgerKind, LedgerOp, Name, SessionId, Site, Terms};
use satp_site::{Directory, RealSite};
use std::alloc::Global;

/// What a ledger is founded with, and what it is asked for.
#[derive(Drop)]
pub struct Given {
    genesis: Genesis,
    session: SessionId,
    terms: Terms,
}

impl Given {
    /// None where no memory was found.
    pub fn new(alloc: Global) -> Option<Given> {
        let session = SessionId::read(b"alpha.1").ok()?;
        let terms = terms()?;
        let genesis = Genesis::read(alloc, b"asset gold 1000\nhold gold ann 100\n").ok()?;
        Some(Given {
            genesis,
            session,
            terms,
        })
    }
}

fn terms() -> Option<Terms> {
    Some(Terms {
        amount: Amount::from(60)?,
        asset: Name::read(b"gold").ok()?,
        beneficiary: Name::read(b"bob").ok()?,
        originator: Name::read(b"ann").ok()?,
    })
}

pub fn ledger_call<D: Directory>(site: &mut RealSite<D>, given: &Given, call: Call<'_>) -> Answer {
    match call.word {
        "found" => found(site, kind(call.first), given),
        "raise" => raise(site),
        "look" => look(site, given),
        "lock" => act(site, LedgerOp::Lock, given),
        "burn" => act(site, LedgerOp::Burn, given),
        "mint" => act(site, LedgerOp::Mint, given),
        _ => Answer::Nothing,
    }
}

fn kind(word: &str) -> LedgerKind {
    match word {
        "outputs" => LedgerKind::Outputs,
        _ => LedgerKind::Accounts,
    }
}

fn found<D: Directory>(site: &mut RealSite<D>, kind: LedgerKind, given: &Given) -> Answer {
    Answer::Done(site.found(kind, &given.genesis).is_ok())
}

fn raise<D: Directory>(site: &mut RealSite<D>) -> Answer {
    Answer::Done(site.raise().is_ok())
}

fn look<D: Directory>(site: &mut RealSite<D>, given: &Given) -> Answer {
    match site.look(given.session) {
        Ok(entry) => Answer::Shown(entry),
        Err(_) => Answer::Done(false),
    }
}

fn act<D: Directory>(site: &mut RealSite<D>, op: LedgerOp, given: &Given) -> Answer {
    match site.act(op, given.session, &given.terms) {
        Ok(answer) => Answer::Acted(answer),
        Err(_) => Answer::Done(false),
    }
}
