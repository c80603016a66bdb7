// A gateway at its site.
ghost use Rattle.std.specs.Prelude.{◌≡◌, false, Some, is_some, option_map, IfOk};
ghost use Rattle.satp_drill.specs.Ends.{IsOpen};
ghost use Rattle.satp_journal.specs.State.{Fits};
ghost use Rattle.satp_memory.specs.Steps.{told_of};
ghost use Rattle.satp_points.specs.States.{is_broken};

use crate::pending::SiteTrouble;
use satp_base::{LedgerCore, Memory};
use satp_gateway::Gateway;
use satp_memory::MemSite;
use std::alloc::Global;

/// A gateway at its site in memory.
#[derive(Drop)]
pub(crate) struct Place<C: LedgerCore> {
    pub(crate) gateway: Gateway,
    pub(crate) site: MemSite<C>,
    pub(crate) ghost within: { is_broken gateway ≡ false → Fits gateway (Some (told_of site.disk)) },
}

/// Opens the gateway of a site, and its ledger.
#[tactic(auto, using(crate::proofs::Keeping::fits_from))]
pub(crate) fn open<C: LedgerCore>(alloc: Global, site: MemSite<C>) -> Result<Place<C>, Memory>
    ensures { IfOk result (λ p. IsOpen p.gateway (told_of p.site.disk) (option_map C.book p.site.core)) }
{
    let mut site = site;
    let Ok(gateway) = Gateway::open(alloc, &mut site) else {
        return Err(Memory);
    };
    if has_ledger(&site) {
        Ok(Place { gateway, site })
    } else {
        Err(Memory)
    }
}

/// Whether the site tells a ledger.
fn has_ledger<C: LedgerCore>(site: &MemSite<C>) -> bool
    ensures { result ≡ is_some (option_map C.book site.now.core) }
{
    match site.core() {
        Some(_) => true,
        None => false,
    }
}

/// A side that has stopped, or whose gateway is broken, is restarted, and its gateway opened again.
#[tactic(auto, using(crate::proofs::Keeping::within_from, crate::proofs::Keeping::fits_from))]
pub(crate) fn ready<C: LedgerCore>(alloc: Global, place: Place<C>) -> Result<Place<C>, Memory> {
    let gateway = place.gateway;
    let mut site = place.site;
    if site.is_stopped() || gateway.is_broken() {
        site.restart()?;
        return open(alloc, site);
    }
    Ok(Place { gateway, site })
}

/// Lets a side stop in the command to come, or a call on its site fail.
#[tactic(auto, using(crate::proofs::Keeping::within_from, crate::proofs::Keeping::fits_from))]
pub(crate) fn arm<C: LedgerCore>(
    place: Place<C>,
    trouble: Option<SiteTrouble>,
) -> Result<Place<C>, Memory> {
    let gateway = place.gateway;
    let mut site = place.site;
    set_trouble(&mut site, trouble)?;
    Ok(Place { gateway, site })
}

fn set_trouble<C: LedgerCore>(
    site: &mut MemSite<C>,
    trouble: Option<SiteTrouble>,
) -> Result<(), Memory>
    ensures { told_of site.new.disk ≡ told_of site.old.disk }
{
    match trouble {
        Some(SiteTrouble::Stop { event, pick }) => {
            site.stop_at(u64::from(event), pick);
            Ok(())
        }
        Some(SiteTrouble::Fail { call }) => {
            let call = site.count().saturating_add(u64::from(call));
            site.fail(call)
        }
        None => Ok(()),
    }
}

/// Drops what was to go wrong and hasn't come. `Memory` where a call on the site found none.
#[tactic(auto, using(crate::proofs::Keeping::within_from, crate::proofs::Keeping::fits_from))]
pub(crate) fn settle<C: LedgerCore>(place: Place<C>) -> Result<Place<C>, Memory> {
    let gateway = place.gateway;
    let mut site = place.site;
    if site.wants() != 0 {
        return Err(Memory);
    }
    site.clear();
    Ok(Place { gateway, site })
}
