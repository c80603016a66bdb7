use crate::alpha::{Came, Site, recover, resume, session, set_up, setup, start};
use crate::rows::{Ask, GOING_ON, Row, STARTS};
use satp_base::Genesis;
use satp_drive::Driven;
use satp_memory::{MemSite, MemWire};
use std::alloc::Global;

/// A site where `alpha` is set up. None where it isn't.
fn new_site(alloc: Global) -> Option<Site> {
    let setup = setup(alloc)?;
    let genesis = Genesis::read(alloc, b"asset gold 1000000\nhold gold ann 1000\n").ok()?;
    let mut site = MemSite::new(alloc).ok()?;
    if !set_up(alloc, &mut site, &setup, &genesis) {
        return None;
    }
    Some(site)
}

/// What comes of a drive over a wire of which these bytes are heard.
fn drive(alloc: Global, site: &mut Site, ask: Ask, heard: &[u8], fails: u64) -> Came {
    let session = session()?;
    let mut wire = MemWire::new(alloc, heard).ok()?;
    wire.fail(fails).ok()?;
    match ask {
        Ask::Start => start(alloc, site, &mut wire),
        Ask::Resume => resume(alloc, site, &mut wire, session),
        Ask::Recover => recover(alloc, site, &mut wire, session),
    }
}

/// Whether of a row's drive comes what it says.
fn comes(alloc: Global, site: &mut Site, row: &Row) -> bool {
    let (ask, heard, fails, end, messages) = *row;
    drive(alloc, site, ask, heard, fails) == Some(Ok(Driven { end, messages }))
}

/// The same at a site of its own.
fn comes_anew(alloc: Global, row: &Row) -> bool {
    match new_site(alloc) {
        Some(mut site) => comes(alloc, &mut site, row),
        None => false,
    }
}

/// Whether of each row, one after the other at this site, comes what it says.
fn all_come(alloc: Global, site: &mut Site, rows: &[Row]) -> bool {
    for row in rows {
        if !comes(alloc, site, row) {
            return false;
        }
    }
    true
}

/// The same at a new site.
fn all_come_anew(alloc: Global, rows: &[Row]) -> bool {
    match new_site(alloc) {
        Some(mut site) => all_come(alloc, &mut site, rows),
        None => false,
    }
}

#[test]
fn what_comes_of_a_start(rt: HostRuntime) {
    let alloc = rt.alloc();
    let first_other = STARTS.iter().position(|row| !comes_anew(alloc, row));
    assert_eq!(rt; first_other, None);
}

#[test]
fn a_started_session_goes_on(rt: HostRuntime) {
    assert!(rt; all_come_anew(rt.alloc(), &GOING_ON));
}
