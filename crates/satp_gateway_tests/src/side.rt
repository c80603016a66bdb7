//! A site in memory, and the gateway that is open there.

ghost use Rattle.std.specs.Prelude.{◌≡◌, false, Some};
ghost use Rattle.std.specs.Option.{ForSome};
ghost use Rattle.satp_journal.specs.State.{Fits};
ghost use Rattle.satp_memory.specs.Steps.{told_of};
ghost use Rattle.satp_points.specs.States.{is_broken};

use crate::ask::{Asked, ask};
use satp_base::{Area, Disk, Entry, Genesis, LedgerCore, Memory, Name, SessionId, Text, View};
use satp_gateway::{Gateway, OpenFault, Refused, SetUpFault};
use satp_memory::MemSite;
use satp_records::Setup;
use std::alloc::Global;

#[derive(Drop)]
pub struct Side<C: LedgerCore> {
    site: MemSite<C>,
    gateway: Option<Gateway>,
    /// The calls up to the last opening or count.
    counted: u64,
    ghost within: { ForSome gateway (λ g. is_broken g ≡ false → Fits g (Some (told_of site.disk))) },
}

impl<C: LedgerCore> Side<C> {
    pub fn new(alloc: Global) -> Result<Side<C>, Memory> {
        Ok(Side {
            site: MemSite::new(alloc)?,
            gateway: None,
            counted: 0,
        })
    }

    /// None where a gateway can't be set up so.
    pub fn set_up(
        &mut self,
        alloc: Global,
        setup: &Setup,
        genesis: &Genesis,
    ) -> Option<Result<(), SetUpFault>> {
        let length = setup.key.bytes().len();
        if length < 32 || length > 64 || setup.name == setup.peer {
            return None;
        }
        self.gateway = None;
        Some(Gateway::set_up(alloc, &mut self.site, setup, C::KIND, genesis))
    }

    #[tactic(auto, using(crate::proofs::Keeping::fits_from))]
    pub fn open(&mut self, alloc: Global) -> Result<(), OpenFault> {
        self.gateway = None;
        self.gateway = Some(Gateway::open(alloc, &mut self.site)?);
        self.counted = self.site.count();
        Ok(())
    }

    /// None where no gateway is open.
    #[tactic(auto, using(crate::proofs::Keeping::within_from, crate::proofs::Keeping::fits_from))]
    pub fn ask(
        &mut self,
        alloc: Global,
        asked: Asked<'_>,
    ) -> Option<Result<Option<Text>, Refused>> {
        match &mut self.gateway {
            Some(gateway) => Some(ask(alloc, gateway, &mut self.site, asked)),
            None => None,
        }
    }

    pub fn show(&self, session: SessionId) -> Option<View> {
        match &self.gateway {
            Some(gateway) => gateway.show(session),
            None => None,
        }
    }

    pub fn entry(&self, session: SessionId) -> Option<Entry> {
        Some(self.site.core()?.entry(session))
    }

    pub fn free(&self, asset: Name, owner: Name) -> Option<u64> {
        Some(self.site.core()?.free(asset, owner))
    }

    /// How many calls were made on the site since the last opening or count.
    pub fn count(&mut self) -> u64 {
        let before = self.counted;
        self.counted = self.site.count();
        self.counted.saturating_sub(before)
    }

    /// Lets a call fail, counted from the next one on.
    pub fn fail(&mut self, call: u64) -> Result<(), Memory> {
        self.site.fail(self.site.count().saturating_add(call))
    }

    pub fn stop(&mut self, event: u64, pick: u32) {
        self.site.stop_at(event, pick);
    }

    /// Drops what was to fail and didn't come.
    pub fn clear(&mut self) {
        self.site.clear();
    }

    /// Starts the site again. No gateway is open after it.
    pub fn restart(&mut self) -> Result<(), Memory> {
        self.gateway = None;
        self.site.restart()
    }

    /// Reads the journal, which is closed for it.
    pub fn journal(&mut self, into: &mut [u8]) -> Option<usize> {
        self.gateway = None;
        self.site.read(Area::JournalA, 0, into).ok()
    }
}
