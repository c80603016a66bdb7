use crate::step::Step;
use anyhow::Result;
use satp_base::{
    Amount, Area, Disk, DiskFault, Genesis, Ledger, LedgerOp, Name, SessionId, Site, Terms,
};
use satp_site::{Directory, RealSite};
use std::alloc::Global;

/// What a ledger is founded with, and what it is asked for.
#[derive(Drop)]
pub struct Given {
    genesis: Genesis,
    session: SessionId,
    terms: Terms,
}

impl Given {
    pub fn make(alloc: Global) -> Result<Given> {
        Ok(Given {
            genesis: Genesis::read(alloc, b"asset gold 1000\nhold gold ann 100\n")?,
            session: SessionId::read(b"alpha.1")?,
            terms: Terms {
                amount: Amount::read(b"60")?,
                asset: Name::read(b"gold")?,
                beneficiary: Name::read(b"bob")?,
                originator: Name::read(b"ann")?,
            },
        })
    }
}

/// The byte of a place.
fn byte_of(place: u64) -> u8 {
    (place % 251) as u8
}

/// What a site answers to a call.
pub fn answer<D: Directory>(
    alloc: Global,
    site: &mut RealSite<D>,
    given: &Given,
    step: Step<'_>,
) -> Result<String> {
    let done = match step {
        Step::Enter(dir) => site.enter(dir.as_bytes()).is_ok(),
        Step::Length(area) => return length(alloc, site, area),
        Step::Read { area, at, count } => return read(alloc, site, area, at, count),
        Step::Write { area, at, count } => write(alloc, site, area, at, count)?,
        Step::Cut { area, size } => site.cut(area, size).is_ok(),
        Step::Sync(area) => site.sync(area).is_ok(),
        Step::Found(kind) => site.found(kind, &given.genesis).is_ok(),
        Step::Raise => site.raise().is_ok(),
        Step::Lock => site
            .act(LedgerOp::Lock, given.session, &given.terms)
            .is_ok(),
        Step::Look => site.look(given.session).is_ok(),
    };
    let said = if done { "done" } else { "failed" };
    Ok(format!(in alloc; "{said}")?)
}

fn length<D: Directory>(alloc: Global, site: &mut RealSite<D>, area: Area) -> Result<String> {
    match site.length(area) {
        Ok(length) => Ok(format!(in alloc; "{length}")?),
        Err(DiskFault) => Ok(format!(in alloc; "failed")?),
    }
}

fn read<D: Directory>(
    alloc: Global,
    site: &mut RealSite<D>,
    area: Area,
    at: u64,
    count: u16,
) -> Result<String> {
    let mut into = vec![in alloc; b'.'; usize::from(count)]?;
    match site.read(area, at, into.as_mut_slice()) {
        Ok(count) => {
            let right = count_right(into.as_slice(), at, count);
            Ok(format!(in alloc; "{count} read, {right} as written")?)
        }
        Err(DiskFault) => Ok(format!(in alloc; "failed")?),
    }
}

/// How many of the first bytes are those of their places.
fn count_right(bytes: &[u8], at: u64, count: usize) -> usize {
    let mut right = 0usize;
    let mut place = at;
    for byte in bytes.iter().take(count) {
        if *byte == byte_of(place) {
            right = right.saturating_add(1);
        }
        place = place.wrapping_add(1);
    }
    right
}

fn write<D: Directory>(
    alloc: Global,
    site: &mut RealSite<D>,
    area: Area,
    at: u64,
    count: u16,
) -> Result<bool> {
    let mut bytes = Vec::new(alloc);
    let mut place = at;
    for _ in 0..count {
        bytes.push(byte_of(place))?;
        place = place.wrapping_add(1);
    }
    Ok(site.write(area, at, bytes.as_slice()).is_ok())
}
