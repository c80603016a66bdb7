ghost use Rattle.std.specs.Prelude.{◌≡◌, option_map};
ghost use Rattle.std.specs.Coded.{Coded-set};
ghost use Rattle.satp_memory.specs.EntryCodes.{coded_entries};
ghost use Rattle.satp_memory.specs.Sites.{entries_or, same_kind};
ghost use Rattle.satp_memory.specs.Steps.{entries_of};

use crate::disk::MemDisk;
use crate::operate::{Halt, operate};
use satp_base::{
    ActFault, Answer, Area, Device, Disk, DiskFault, Entry, Event, Genesis, Ledger, LedgerCall,
    LedgerCore, LedgerKind, LedgerOp, Memory, SessionId, Site, SiteFault, Terms,
};
use std::alloc::Global;

/// A disk and a ledger in memory, with one trail and one count of faults.
///
/// A call fails where [`MemSite::fail`] named it or a stop was reached, and beside that only where it found no memory, where it uses a ledger that wasn't founded, and where it founds one of another kind.
#[derive(Drop)]
pub struct MemSite<C: LedgerCore> {
    disk: MemDisk,
    core: Option<C>,
    ghost one: { entries_or (option_map C.book core) (entries_of disk) ≡ entries_of disk } by { Coded-set coded_entries (entries_or (option_map C.book core) (entries_of disk)) (entries_of disk) },
}

impl<C: LedgerCore> MemSite<C> {
    ghost use Rattle.std.specs.Prelude.{◌≡◌, None, Some, length, IfOk, OnOk, OnErr};
    ghost use Rattle.std.specs.Option.{option_copied};
    ghost use Rattle.satp_memory.specs.Calling.{cleared, fresh, naming};
    ghost use Rattle.satp_memory.specs.Stopping.{reached_alone, stop_after};
    ghost use Rattle.satp_memory.specs.Steps.{IsFresh, Restarts, SameDisk, is_stopped, told_of};

    /// A site with empty areas and no ledger, that was never called.
    pub fn new(alloc: Global) -> Result<MemSite<C>, Memory>
        ensures { IfOk result (λ site. IsFresh site.disk × (site.disk.calls ≡ fresh) × (site.core ≡ None)) }
    {
        Ok(MemSite {
            disk: MemDisk::new(alloc)?,
            core: None,
        })
    }

    /// Makes the call of this number, from 1, fail. `Memory` where none was found to note it.
    pub fn fail(&mut self, call: u64) -> Result<(), Memory>
        ensures same { SameDisk self.old.disk self.new.disk }
        ensures core { self.new.core ≡ self.old.core }
        ensures ok { OnOk result (self.new.disk.calls ≡ naming call self.old.disk.calls) }
        ensures err { OnErr result (self.new.disk.calls ≡ self.old.disk.calls) }
    {
        self.disk.fail(call)
    }

    /// How many calls there were.
    pub fn count(&self) -> u64
        ensures { result ≡ self.now.disk.calls.count }
    {
        self.disk.count()
    }

    /// How many calls failed because no memory was found.
    pub fn wants(&self) -> u64
        ensures { result ≡ self.now.disk.calls.wants }
    {
        self.disk.wants()
    }

    /// After so many further events, those of the ledger too, every call fails and adds none, until a restart. A later stop takes the place of an earlier one.
    pub fn stop_at(&mut self, event: u64, pick: u32)
        ensures told { told_of self.new.disk ≡ told_of self.old.disk }
        ensures core { self.new.core ≡ self.old.core }
        ensures calls { self.new.disk.calls ≡ self.old.disk.calls }
        ensures stop { self.new.disk.stop ≡ Some (stop_after (length self.old.disk.events.items) event pick) }
    {
        self.disk.stop_at(event, pick);
    }

    /// Whether so many events are there that every call fails, until a restart.
    pub fn is_stopped(&self) -> bool
        ensures { result ≡ is_stopped self.now.disk }
    {
        self.disk.is_stopped()
    }

    /// Drops a stop that wasn't reached, and each call that is to fail and hasn't come.
    pub fn clear(&mut self)
        ensures told { told_of self.new.disk ≡ told_of self.old.disk }
        ensures core { self.new.core ≡ self.old.core }
        ensures calls { self.new.disk.calls ≡ cleared self.old.disk.calls }
        ensures stop { self.new.disk.stop ≡ reached_alone self.old.disk.stop (length self.old.disk.events.items) }
    {
        self.disk.clear();
    }

    /// A restart after a stop: each area has the image of the stop's pick, as [`MemDisk::restart`] says, the entries are as they were, and the trail begins anew with both.
    ///
    /// `Memory` leaves all as it was.
    pub fn restart(&mut self) -> Result<(), Memory>
        ensures ok { OnOk result (Restarts self.old.disk self.new.disk) }
        ensures err { OnErr result (SameDisk self.old.disk self.new.disk) }
        ensures calls { self.new.disk.calls ≡ self.old.disk.calls }
        ensures core { self.new.core ≡ self.old.core }
    {
        self.disk.restart()
    }

    /// The ledger that the site tells; none exactly where no founding has succeeded, or the last one failed.
    pub fn core(&self) -> Option<&C>
        ensures { option_copied result ≡ self.now.core }
    {
        self.core.as_ref()
    }
}

/// The kinds are one.
fn same_kind(kind: LedgerKind, own: LedgerKind) -> bool
    ensures { result ≡ same_kind kind own }
{
    kind == own
}

impl<C: LedgerCore> Device for MemSite<C> {
    ghost use Rattle.std.specs.Prelude.{Some};
    ghost use Rattle.satp_memory.specs.FollowingLaws.{follows_site_same, follows_site_then};
    ghost use Rattle.satp_memory.specs.Following.{FollowsSite};
    ghost use Rattle.satp_memory.specs.Plain.{told_keeps};
    ghost use Rattle.satp_memory.specs.Steps.{told_of};

    ghost told = { λ s. Some (told_of s.disk) };

    ghost book = { λ s. option_map C.book s.core };

    ghost faults = { λ s. s.disk.calls.faults };

    ghost beside = { λ old new. FollowsSite C.KIND (option_map C.book old.core) (option_map C.book new.core) old.disk new.disk };

    ghost keeps_model = { λ s t is. told_keeps _ t s.disk.plain is };

    ghost beside_same = { λ s. follows_site_same C.KIND (option_map C.book s.core) s.disk };

    ghost beside_then = { λ a b c. follows_site_then C.KIND (option_map C.book a.core) (option_map C.book b.core) (option_map C.book c.core) a.disk b.disk c.disk };
}

impl<C: LedgerCore> Disk for MemSite<C> {
    ghost use Rattle.std.specs.Prelude.{◌≡◌, ◌≤◌, ◌+◌, ◌-◌, ◌^◌, [], ◌∷◌, Some, length, IfOk, OnOk, OnErr};
    ghost use Rattle.std.specs.Option.{ForSome};
    ghost use Rattle.satp_base.specs.Streams.{HasCause};
    ghost use Rattle.satp_base.specs.Trail.{seen};
    ghost use Rattle.satp_base.specs.Calls.{Fails, MayMiss, Reads, call_failed, enter_failed, entered, made};
    ghost use Rattle.satp_base.specs.declared.area.Event.TheVariants.{Wrote, Cut, Synced};
    ghost use Rattle.satp_memory.specs.Following.{FollowsSite};
    ghost use Rattle.satp_memory.specs.Steps.{Adds, Ends, EndsOrWants, EntersOrWants, told_of};

    fn enter(&mut self, dir: &[u8]) -> Result<(), DiskFault>
        ensures ok { OnOk result (told_of self.new.disk ≡ entered dir.now (told_of self.old.disk)) }
        ensures err { OnErr result (MayMiss (enter_failed dir.now) [] (Some (told_of self.old.disk)) (Some (told_of self.new.disk))) }
        ensures cause { HasCause self.old.disk.calls.faults self.new.disk.calls.faults result }
        ensures ended { EntersOrWants dir.now self.old.disk self.new.disk result }
        ensures stop { self.new.disk.stop ≡ self.old.disk.stop }
        ensures beside { FollowsSite C.KIND (option_map C.book self.old.core) (option_map C.book self.new.core) self.old.disk self.new.disk }
        ensures core { self.new.core ≡ self.old.core }
    {
        self.disk.enter(dir)
    }

    fn length(&mut self, area: Area) -> Result<u64, DiskFault>
        ensures length { IfOk result (λ n. n ≡ length (seen (told_of self.old.disk).trail area)) }
        ensures ok { OnOk result (told_of self.new.disk ≡ made 1 [] (told_of self.old.disk)) }
        ensures err { OnErr result (told_of self.new.disk ≡ call_failed [] (told_of self.old.disk)) }
        ensures cause { HasCause self.old.disk.calls.faults self.new.disk.calls.faults result }
        ensures ended { Ends self.old.disk self.new.disk result }
        ensures stop { self.new.disk.stop ≡ self.old.disk.stop }
        ensures beside { FollowsSite C.KIND (option_map C.book self.old.core) (option_map C.book self.new.core) self.old.disk self.new.disk }
        ensures core { self.new.core ≡ self.old.core }
    {
        self.disk.length(area)
    }

    fn read(&mut self, area: Area, at: u64, into: &mut [u8]) -> Result<usize, DiskFault>
        ensures bound { IfOk result (λ n. n ≤ length into.new) }
        ensures bytes { IfOk result (λ n. Reads (seen (told_of self.old.disk).trail area) at into.new n) }
        ensures ok { OnOk result (told_of self.new.disk ≡ made 1 [] (told_of self.old.disk)) }
        ensures err { OnErr result (told_of self.new.disk ≡ call_failed [] (told_of self.old.disk)) }
        ensures cause { HasCause self.old.disk.calls.faults self.new.disk.calls.faults result }
        ensures ended { Ends self.old.disk self.new.disk result }
        ensures stop { self.new.disk.stop ≡ self.old.disk.stop }
        ensures beside { FollowsSite C.KIND (option_map C.book self.old.core) (option_map C.book self.new.core) self.old.disk self.new.disk }
        ensures core { self.new.core ≡ self.old.core }
    {
        self.disk.read(area, at, into)
    }

    fn write(&mut self, area: Area, at: u64, bytes: &[u8]) -> Result<(), DiskFault>
        requires { ForSome (Some (told_of self.old.disk)) (λ t. at ≤ length (seen t.trail area)) }
        ensures ok { OnOk result (told_of self.new.disk ≡ made 1 (Wrote area at bytes.now ∷ []) (told_of self.old.disk)) }
        ensures fits { OnOk result (at + length bytes.now ≤ 2 ^ 64 - 1) }
        ensures err { OnErr result (Fails (Wrote area at bytes.now) (Some (told_of self.old.disk)) (Some (told_of self.new.disk))) }
        ensures cause { HasCause self.old.disk.calls.faults self.new.disk.calls.faults result }
        ensures ended { EndsOrWants self.old.disk self.new.disk result }
        ensures adds { Adds (Wrote area at bytes.now) (Wrote area at bytes.now ∷ []) self.old.disk self.new.disk result }
        ensures stop { self.new.disk.stop ≡ self.old.disk.stop }
        ensures beside { FollowsSite C.KIND (option_map C.book self.old.core) (option_map C.book self.new.core) self.old.disk self.new.disk }
        ensures core { self.new.core ≡ self.old.core }
    {
        self.disk.write(area, at, bytes)
    }

    fn cut(&mut self, area: Area, size: u64) -> Result<(), DiskFault>
        requires { ForSome (Some (told_of self.old.disk)) (λ t. size ≤ length (seen t.trail area)) }
        ensures ok { OnOk result (told_of self.new.disk ≡ made 1 (Cut area size ∷ []) (told_of self.old.disk)) }
        ensures err { OnErr result (Fails (Cut area size) (Some (told_of self.old.disk)) (Some (told_of self.new.disk))) }
        ensures cause { HasCause self.old.disk.calls.faults self.new.disk.calls.faults result }
        ensures ended { EndsOrWants self.old.disk self.new.disk result }
        ensures adds { Adds (Cut area size) (Cut area size ∷ []) self.old.disk self.new.disk result }
        ensures stop { self.new.disk.stop ≡ self.old.disk.stop }
        ensures beside { FollowsSite C.KIND (option_map C.book self.old.core) (option_map C.book self.new.core) self.old.disk self.new.disk }
        ensures core { self.new.core ≡ self.old.core }
    {
        self.disk.cut(area, size)
    }

    fn sync(&mut self, area: Area) -> Result<(), DiskFault>
        ensures ok { OnOk result (told_of self.new.disk ≡ made 1 (Synced area ∷ []) (told_of self.old.disk)) }
        ensures err { OnErr result (Fails (Synced area) (Some (told_of self.old.disk)) (Some (told_of self.new.disk))) }
        ensures cause { HasCause self.old.disk.calls.faults self.new.disk.calls.faults result }
        ensures ended { EndsOrWants self.old.disk self.new.disk result }
        ensures adds { Adds (Synced area) [] self.old.disk self.new.disk result }
        ensures stop { self.new.disk.stop ≡ self.old.disk.stop }
        ensures beside { FollowsSite C.KIND (option_map C.book self.old.core) (option_map C.book self.new.core) self.old.disk self.new.disk }
        ensures core { self.new.core ≡ self.old.core }
    {
        self.disk.sync(area)
    }
}

impl<C: LedgerCore> Ledger for MemSite<C> {
    ghost use Rattle.std.specs.Prelude.{◌≡◌, ◌⊎◌, List, [], Some, None, is_some, IfOk, IfErr, IfSome, OnErr};
    ghost use Rattle.satp_base.specs.Streams.{HasCause};
    ghost use Rattle.satp_base.specs.Acts.{Asks, MayAnswer, MayRefuse};
    ghost use Rattle.satp_base.specs.LedgerRule.{entry_of};
    ghost use Rattle.satp_base.specs.declared.ledger.LedgerCall.TheVariants.{Act, Look};
    ghost use Rattle.satp_memory.specs.Calling.{is_refused};
    ghost use Rattle.satp_memory.specs.Following.{FollowsSite};
    ghost use Rattle.satp_memory.specs.Sites.{ActEnds, ActTells, LedgerEnds};
    ghost use Rattle.satp_memory.specs.Steps.{Notes, is_stopped, told_of};

    /// It takes no effect where it fails.
    fn act(&mut self, op: LedgerOp, session: SessionId, terms: &Terms) -> Result<Answer, ActFault>
        ensures answer { IfOk result (MayAnswer op) }
        ensures refused { IfErr result (MayRefuse op) }
        ensures told { ActTells op session terms.now (option_map C.book self.old.core) result (option_map C.book self.new.core) (told_of self.old.disk) (told_of self.new.disk) }
        ensures noted { Notes (Act op session terms.now) self.old.disk self.new.disk result }
        ensures cause { HasCause self.old.disk.calls.faults self.new.disk.calls.faults result }
        ensures ended { ActEnds (is_refused (is_stopped self.old.disk) self.old.disk.calls) (is_some (option_map C.book self.old.core)) self.old.disk.calls self.new.disk.calls result }
        ensures failed { OnErr result ((option_map C.book self.new.core ≡ option_map C.book self.old.core) × (self.new.disk.events.items ≡ self.old.disk.events.items)) }
        ensures untold { option_map C.book self.old.core ≡ None → option_map C.book self.new.core ≡ None }
        ensures stop { self.new.disk.stop ≡ self.old.disk.stop }
        ensures beside { FollowsSite C.KIND (option_map C.book self.old.core) (option_map C.book self.new.core) self.old.disk self.new.disk }
    {
        let call = LedgerCall::Act {
            op,
            session,
            terms: *terms,
        };
        let ask = match self.disk.ask(call, self.core.is_some()) {
            Ok(ask) => ask,
            Err(_) => return Err(ActFault::Failed),
        };
        match operate(&mut self.core, op, session, terms) {
            Ok(done) => {
                self.disk.answer(ask, done.changed, op, session, *terms);
                Ok(done.answer)
            }
            Err(halt) => Err(self.disk.halt(ask, halt)),
        }
    }

    fn look(&mut self, session: SessionId) -> Result<Entry, ActFault>
        ensures entry { IfOk result (λ entry. IfSome (option_map C.book self.old.core) (λ b. entry ≡ entry_of b.entries session)) }
        ensures fault { IfErr result (λ fault. fault ≡ ActFault.Failed) }
        ensures told { Asks (Look session) [] result (Some (told_of self.old.disk)) (Some (told_of self.new.disk)) }
        ensures noted { Notes (Look session) self.old.disk self.new.disk result }
        ensures cause { HasCause self.old.disk.calls.faults self.new.disk.calls.faults result }
        ensures ended { LedgerEnds (is_refused (is_stopped self.old.disk) self.old.disk.calls) (is_some (option_map C.book self.old.core)) self.old.disk.calls self.new.disk.calls result }
        ensures stop { self.new.disk.stop ≡ self.old.disk.stop }
        ensures beside { FollowsSite C.KIND (option_map C.book self.old.core) (option_map C.book self.new.core) self.old.disk self.new.disk }
        ensures core { self.new.core ≡ self.old.core }
    {
        let call = LedgerCall::Look { session };
        let ask = match self.disk.ask(call, self.core.is_some()) {
            Ok(ask) => ask,
            Err(_) => return Err(ActFault::Failed),
        };
        match &self.core {
            Some(core) => {
                self.disk.done(ask);
                Ok(core.entry(session))
            }
            None => Err(self.disk.halt(ask, Halt::Unfounded)),
        }
    }
}

impl<C: LedgerCore> Site for MemSite<C> {
    ghost use Rattle.std.specs.Prelude.{◌≡◌, List, [], Some, is_some, OnErr};
    ghost use Rattle.satp_base.specs.Streams.{HasCause};
    ghost use Rattle.satp_base.specs.Acts.{Asks, FoundEvents, FoundsBook};
    ghost use Rattle.satp_base.specs.declared.area.Event.{Event};
    ghost use Rattle.satp_base.specs.declared.ledger.LedgerCall.TheVariants.{Found, Raise};
    ghost use Rattle.satp_memory.specs.Calling.{is_refused};
    ghost use Rattle.satp_memory.specs.Following.{FollowsSite};
    ghost use Rattle.satp_memory.specs.Sites.{LedgerEnds, same_kind};
    ghost use Rattle.satp_memory.specs.Steps.{Notes, is_stopped, told_of};
    ghost use Rattle.satp_memory.specs.OneLedger.{one_ledger_of};

    /// One that fails leaves no ledger, and adds no event.
    fn found(&mut self, kind: LedgerKind, genesis: &Genesis) -> Result<(), SiteFault>
        ensures told { (events : List Event) × FoundEvents result events
            × Asks (Found kind genesis.now) events result (Some (told_of self.old.disk)) (Some (told_of self.new.disk)) }
        ensures noted { Notes (Found kind genesis.now) self.old.disk self.new.disk result }
        ensures ledger { FoundsBook genesis.now result (Some (told_of self.old.disk)) (option_map C.book self.new.core) }
        ensures failed { OnErr result (self.new.disk.events.items ≡ self.old.disk.events.items) }
        ensures cause { HasCause self.old.disk.calls.faults self.new.disk.calls.faults result }
        ensures ended { LedgerEnds (is_refused (is_stopped self.old.disk) self.old.disk.calls) (same_kind kind C.KIND) self.old.disk.calls self.new.disk.calls result }
        ensures stop { self.new.disk.stop ≡ self.old.disk.stop }
        ensures beside { FollowsSite C.KIND (option_map C.book self.old.core) (option_map C.book self.new.core) self.old.disk self.new.disk }
    {
        self.core = None;
        let fits = same_kind(kind, C::KIND);
        let ask = match self.disk.ask_founding(kind, genesis, fits) {
            Ok(ask) => ask,
            Err(_) => return Err(SiteFault),
        };
        match C::begin(self.disk.alloc, genesis) {
            Ok(core) => {
                self.core = Some(core);
                self.disk.found(ask);
                Ok(())
            }
            Err(_) => {
                self.disk.halt(ask, Halt::Memory);
                Err(SiteFault)
            }
        }
    }

    fn raise(&mut self) -> Result<(), SiteFault>
        ensures told { Asks Raise [] result (Some (told_of self.old.disk)) (Some (told_of self.new.disk)) }
        ensures noted { Notes Raise self.old.disk self.new.disk result }
        ensures cause { HasCause self.old.disk.calls.faults self.new.disk.calls.faults result }
        ensures ended { LedgerEnds (is_refused (is_stopped self.old.disk) self.old.disk.calls) (is_some (option_map C.book self.old.core)) self.old.disk.calls self.new.disk.calls result }
        ensures stop { self.new.disk.stop ≡ self.old.disk.stop }
        ensures beside { FollowsSite C.KIND (option_map C.book self.old.core) (option_map C.book self.new.core) self.old.disk self.new.disk }
        ensures core { self.new.core ≡ self.old.core }
    {
        match self.disk.ask(LedgerCall::Raise, self.core.is_some()) {
            Ok(ask) => {
                self.disk.done(ask);
                Ok(())
            }
            Err(_) => Err(SiteFault),
        }
    }

    ghost one_ledger = { λ site t b told book. one_ledger_of site.disk (option_map C.book site.core) t b site.one told book };
}
