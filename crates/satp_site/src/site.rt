ghost use Rattle.std.specs.Prelude.{◌≡◌, None, option_map};
ghost use Rattle.satp_devices.specs.Counting.{Counts};
ghost use Rattle.satp_devices.specs.Untold.{untold_keeps};
ghost use Rattle.satp_site.specs.Untold.{untold_ledger};

use crate::directory::Directory;
use crate::kept_ledger::KeptLedger;
use satp_base::{
    ActFault, Answer, Area, Device, Disk, DiskFault, Entry, Genesis, Ledger, LedgerKind, LedgerOp,
    SessionId, Site, SiteFault, Terms,
};
use satp_devices::counted;
use std::alloc::Global;

/// A disk in a directory, and a ledger that is kept in the file `ledger` of the same directory.
///
/// The ledger is there once [`Site::found`] or [`Site::raise`] has succeeded, of the kind that was founded; until then operations and looks fail.
/// It tells nothing, and counts the calls that failed, each once.
#[derive(Drop)]
pub struct RealSite<D: Directory> {
    alloc: Global,
    disk: D,
    ledger: Option<KeptLedger<D>>,
    faults: u64,
}

impl<D: Directory> RealSite<D> {
    ghost use Rattle.satp_site.specs.Ledgers.{state_of};
    ghost use Rattle.satp_site.specs.Directories.{directory_state};
    ghost use Rattle.satp_site.specs.Sites.{given_back};

    /// A site without a ledger, on a disk that is in no directory yet.
    pub fn new(disk: D, alloc: Global) -> RealSite<D>
        ensures disk { result.disk ≡ disk }
        ensures ledger { result.ledger ≡ None }
        ensures faults { result.faults ≡ 0 }
    {
        RealSite {
            alloc,
            disk,
            ledger: None,
            faults: 0,
        }
    }

    /// Gives the disk of a ledger back, if there is one, and with it the ledger.
    fn let_go(&mut self)
        ensures disk { let shown = directory_state D.told D.faults D.second_state in
            shown self.new.disk ≡ given_back (option_map state_of self.old.ledger) (shown self.old.disk) }
        ensures ledger { self.new.ledger ≡ None }
        ensures faults { self.new.faults ≡ self.old.faults }
    {
        if let Some(ledger) = self.ledger.take() {
            self.disk.give_back(ledger.into_disk());
        }
    }
}

impl<D: Directory> Device for RealSite<D> {
    ghost told = { λ _. None };

    ghost book = { λ _. None };

    ghost faults = { λ s. s.faults };

    ghost keeps_model = { λ s t is. untold_keeps t is };

    ghost beside_same = { λ _. tt };

    ghost beside_then = { λ _ _ _ _ _. tt };
}

/// A call on the disk is that call on the disk of the directory, which tells so where it tells. It fails only where that fails, and leaves the ledger alone; entering a directory drops it.
impl<D: Directory> Disk for RealSite<D> {
    ghost use Rattle.std.specs.Prelude.{◌≤◌, ◌+◌, ◌-◌, ◌^◌, [], ◌∷◌, length, IfOk, IfSome, OnOk, OnErr};
    ghost use Rattle.satp_base.specs.Calls.{call_failed, made, Fails, Reads};
    ghost use Rattle.satp_base.specs.Streams.{HasCause};
    ghost use Rattle.satp_base.specs.Trail.{seen};
    ghost use Rattle.satp_base.specs.declared.area.Event.TheVariants.{Wrote, Cut, Synced};
    ghost use Rattle.satp_site.specs.Ledgers.{state_of};
    ghost use Rattle.satp_site.specs.Directories.{directory_state};
    ghost use Rattle.satp_site.specs.Sites.{SiteEnters, given_back};

    fn enter(&mut self, dir: &[u8]) -> Result<(), DiskFault>
        ensures enters { let shown = directory_state D.told D.faults D.second_state in
            SiteEnters dir.now (given_back (option_map state_of self.old.ledger) (shown self.old.disk)) result (shown self.new.disk) }
        ensures cause { HasCause self.old.faults self.new.faults result }
        ensures counts { Counts self.old.faults self.new.faults result }
        ensures ledger { self.new.ledger ≡ None }
    {
        // The ledger's disk stands under the lock that is given back here.
        self.let_go();
        counted(&mut self.faults, self.disk.enter(dir))
    }

    fn length(&mut self, area: Area) -> Result<u64, DiskFault>
        ensures length { IfOk result (λ n. IfSome (D.told self.old.disk) (λ t. n ≡ length (seen t.trail area))) }
        ensures done { OnOk result (D.told self.new.disk ≡ option_map (made 1 []) (D.told self.old.disk)) }
        ensures failed { OnErr result (D.told self.new.disk ≡ option_map (call_failed []) (D.told self.old.disk)) }
        ensures cause { HasCause self.old.faults self.new.faults result }
        ensures counts { Counts self.old.faults self.new.faults result }
        ensures disk { HasCause (D.faults self.old.disk) (D.faults self.new.disk) result }
        ensures call { D.beside self.old.disk self.new.disk }
        ensures ledger { self.new.ledger ≡ self.old.ledger }
    {
        counted(&mut self.faults, self.disk.length(area))
    }

    fn read(&mut self, area: Area, at: u64, into: &mut [u8]) -> Result<usize, DiskFault>
        ensures bound { IfOk result (λ n. n ≤ length into.new) }
        ensures bytes { IfOk result (λ n. IfSome (D.told self.old.disk) (λ t. Reads (seen t.trail area) at into.new n)) }
        ensures done { OnOk result (D.told self.new.disk ≡ option_map (made 1 []) (D.told self.old.disk)) }
        ensures failed { OnErr result (D.told self.new.disk ≡ option_map (call_failed []) (D.told self.old.disk)) }
        ensures cause { HasCause self.old.faults self.new.faults result }
        ensures counts { Counts self.old.faults self.new.faults result }
        ensures disk { HasCause (D.faults self.old.disk) (D.faults self.new.disk) result }
        ensures call { D.beside self.old.disk self.new.disk }
        ensures ledger { self.new.ledger ≡ self.old.ledger }
    {
        counted(&mut self.faults, self.disk.read(area, at, into))
    }

    fn write(&mut self, area: Area, at: u64, bytes: &[u8]) -> Result<(), DiskFault>
        ensures fits { OnOk result (at + length bytes.now ≤ 2 ^ 64 - 1) }
        ensures done { OnOk result (D.told self.new.disk ≡ option_map (made 1 (Wrote area at bytes.now ∷ [])) (D.told self.old.disk)) }
        ensures failed { OnErr result (Fails (Wrote area at bytes.now) (D.told self.old.disk) (D.told self.new.disk)) }
        ensures cause { HasCause self.old.faults self.new.faults result }
        ensures counts { Counts self.old.faults self.new.faults result }
        ensures disk { HasCause (D.faults self.old.disk) (D.faults self.new.disk) result }
        ensures call { D.beside self.old.disk self.new.disk }
        ensures ledger { self.new.ledger ≡ self.old.ledger }
    {
        counted(&mut self.faults, self.disk.write_from(area, at, bytes))
    }

    fn cut(&mut self, area: Area, size: u64) -> Result<(), DiskFault>
        ensures done { OnOk result (D.told self.new.disk ≡ option_map (made 1 (Cut area size ∷ [])) (D.told self.old.disk)) }
        ensures failed { OnErr result (Fails (Cut area size) (D.told self.old.disk) (D.told self.new.disk)) }
        ensures cause { HasCause self.old.faults self.new.faults result }
        ensures counts { Counts self.old.faults self.new.faults result }
        ensures disk { HasCause (D.faults self.old.disk) (D.faults self.new.disk) result }
        ensures call { D.beside self.old.disk self.new.disk }
        ensures ledger { self.new.ledger ≡ self.old.ledger }
    {
        counted(&mut self.faults, self.disk.cut_to(area, size))
    }

    fn sync(&mut self, area: Area) -> Result<(), DiskFault>
        ensures done { OnOk result (D.told self.new.disk ≡ option_map (made 1 (Synced area ∷ [])) (D.told self.old.disk)) }
        ensures failed { OnErr result (Fails (Synced area) (D.told self.old.disk) (D.told self.new.disk)) }
        ensures cause { HasCause self.old.faults self.new.faults result }
        ensures counts { Counts self.old.faults self.new.faults result }
        ensures disk { HasCause (D.faults self.old.disk) (D.faults self.new.disk) result }
        ensures call { D.beside self.old.disk self.new.disk }
        ensures ledger { self.new.ledger ≡ self.old.ledger }
    {
        counted(&mut self.faults, self.disk.sync(area))
    }
}

impl<D: Directory> Ledger for RealSite<D> {
    ghost use Rattle.std.specs.Prelude.{List, [], Result, Err, IfOk, IfErr, IfSome};
    ghost use Rattle.satp_base.specs.Streams.{HasCause};
    ghost use Rattle.satp_base.specs.Acts.{ActsOn, Asks, MayAdd, MayAnswer, MayRefuse};
    ghost use Rattle.satp_base.specs.declared.area.Event.{Event};
    ghost use Rattle.satp_base.specs.declared.area.Event.TheVariants.{Acted};
    ghost use Rattle.satp_base.specs.declared.ledger.LedgerCall.TheVariants.{Act};
    ghost use Rattle.satp_site.specs.Ledgers.{state_of};
    ghost use Rattle.satp_site.specs.Sites.{SiteActs, SiteLooks};

    /// As the ledger that it holds; without one it fails.
    fn act(&mut self, op: LedgerOp, session: SessionId, terms: &Terms) -> Result<Answer, ActFault>
        ensures answer { IfOk result (MayAnswer op) }
        ensures refused { IfErr result (MayRefuse op) }
        ensures told { (events : List Event) × MayAdd (Acted op session terms.now) result events
            × IfSome None (λ b. ActsOn op session terms.now b result events None)
            × Asks (Act op session terms.now) events result None None }
        ensures acts { SiteActs op session terms.now (option_map state_of self.old.ledger) result (option_map state_of self.new.ledger) }
        ensures cause { HasCause self.old.faults self.new.faults result }
        ensures counts { Counts self.old.faults self.new.faults result }
        ensures disk { self.new.disk ≡ self.old.disk }
    {
        let answer = KeptLedger::act_on(&mut self.ledger, op, session, terms);
        counted(&mut self.faults, answer)
    }

    /// As the ledger that it holds; without one it fails.
    fn look(&mut self, session: SessionId) -> Result<Entry, ActFault>
        ensures fault { IfErr result (λ fault. fault ≡ ActFault.Failed) }
        ensures looks { SiteLooks session (option_map state_of self.old.ledger) result (option_map state_of self.new.ledger) }
        ensures cause { HasCause self.old.faults self.new.faults result }
        ensures counts { Counts self.old.faults self.new.faults result }
        ensures disk { self.new.disk ≡ self.old.disk }
    {
        let answer = KeptLedger::look_at(&mut self.ledger, session);
        counted(&mut self.faults, answer)
    }
}

impl<D: Directory> Site for RealSite<D> {
    ghost use Rattle.std.specs.Prelude.{List, []};
    ghost use Rattle.satp_base.specs.Streams.{HasCause};
    ghost use Rattle.satp_base.specs.Acts.{Asks, FoundEvents, FoundsBook};
    ghost use Rattle.satp_base.specs.declared.area.Event.{Event};
    ghost use Rattle.satp_base.specs.declared.ledger.LedgerCall.TheVariants.{Found, Raise};
    ghost use Rattle.satp_site.specs.Ledgers.{state_of};
    ghost use Rattle.satp_site.specs.Directories.{directory_state};
    ghost use Rattle.satp_site.specs.Sites.{SiteFounds, SiteRaises, given_back};

    ghost one_ledger = { λ s t b told book. untold_ledger t b told };

    /// It fails only where no second disk was had in its directory, or where the keeper of that kind fails.
    fn found(&mut self, kind: LedgerKind, genesis: &Genesis) -> Result<(), SiteFault>
        ensures told { (events : List Event) × FoundEvents result events × Asks (Found kind genesis.now) events result None None }
        ensures book { FoundsBook genesis.now result None None }
        ensures founds { let shown = directory_state D.told D.faults D.second_state in
            SiteFounds kind genesis.now (given_back (option_map state_of self.old.ledger) (shown self.old.disk)) result (shown self.new.disk) (option_map state_of self.new.ledger) }
        ensures cause { HasCause self.old.faults self.new.faults result }
        ensures counts { Counts self.old.faults self.new.faults result }
    {
        self.let_go();
        match KeptLedger::found_on_second(self.alloc, &mut self.disk, kind, genesis) {
            Ok(ledger) => {
                self.ledger = Some(ledger);
                Ok(())
            }
            Err(fault) => counted(&mut self.faults, Err(fault)),
        }
    }

    /// It fails only where no second disk was had in its directory, or where the keepers fail.
    fn raise(&mut self) -> Result<(), SiteFault>
        ensures told { Asks Raise [] result None None }
        ensures raises { let shown = directory_state D.told D.faults D.second_state in
            SiteRaises (given_back (option_map state_of self.old.ledger) (shown self.old.disk)) result (shown self.new.disk) (option_map state_of self.new.ledger) }
        ensures cause { HasCause self.old.faults self.new.faults result }
        ensures counts { Counts self.old.faults self.new.faults result }
    {
        self.let_go();
        match KeptLedger::open_on_second(self.alloc, &mut self.disk) {
            Ok(ledger) => {
                self.ledger = Some(ledger);
                Ok(())
            }
            Err(fault) => counted(&mut self.faults, Err(fault)),
        }
    }
}
