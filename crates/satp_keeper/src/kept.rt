ghost use Rattle.std.specs.Prelude.{◌≡◌, ◌≢◌, ◌≤◌, ◌+◌, Ok, Some, None, [], IfErr, IfOk, OnOk, IfSome, MatchResult, IsTrue, ◌↔◌, false, if◌then◌else◌};
ghost use Rattle.satp_base.specs.Acts.{founded};
ghost use Rattle.satp_base.specs.Calls.{Makes};
ghost use Rattle.satp_base.specs.Streams.{HasCause, Rose};
ghost use Rattle.satp_base.specs.declared.area.Area.TheVariants.{Ledger};
ghost use Rattle.satp_journal.specs.Appending.{AppendStops, RestsStill};
ghost use Rattle.satp_journal.specs.Opening.{OpenAnswers, OpenStops, Rests};
ghost use Rattle.satp_journal.specs.State.{Fits};
ghost use Rattle.satp_records.specs.Formats.{payload_of};
ghost use Rattle.satp_records.specs.declared.stored.Stored.TheVariants as stored;
ghost use Rattle.satp_keeper.specs.Books.{Leaves, ledger_payloads};
ghost use Rattle.satp_keeper.specs.Founding.{FoundStops, UnfoundedBy, found_calls};
ghost use Rattle.satp_keeper.specs.Opening.{UnopenedBy};
ghost use Rattle.satp_keeper.specs.Operating.{KeepAnswers, act_fault, count_behind, faults_after, wants_after};

use crate::fault::{KeeperFault, fault_of};
use crate::founding::set_up;
use crate::keep::keep;
use crate::replay::read_ledger;
use crate::tally::Tally;
use satp_base::{
    ActFault, Answer, Area, Device, Disk, Entry, Genesis, Ledger, LedgerCore, LedgerKind, LedgerOp,
    SessionId, Terms,
};
use satp_journal::Journal;
use std::alloc::Global;

/// A disk on which no ledger was founded or opened, and why not.
#[derive(Drop)]
pub struct Unopened<D> {
    pub disk: D,
    pub fault: KeeperFault,
}

/// A ledger with a journal in the area `Ledger` of a disk.
///
/// Every operation that changes an entry is stored by one append before it is answered.
/// After `Disk` every call on the ledger fails until it is opened again; what that opening finds is what the failed operation did.
#[derive(Drop)]
pub struct Kept<C: LedgerCore, D: Disk> {
    alloc: Global,
    core: C,
    disk: D,
    journal: Journal,
    broken: bool,
    tally: Tally,
    ghost area: { journal.held.area ≡ Ledger },
    ghost whole: { broken ≡ journal.held.broken },
    ghost fits: { broken ≡ false → Fits journal.held (D.told disk) },
}

/// Opens the journal of a ledger, and reads the ledger from it.
fn open_ledger<C: LedgerCore, D: Disk>(
    alloc: Global,
    disk: &mut D,
    kind: LedgerKind,
) -> Result<(C, Journal), KeeperFault>
    ensures opened { MatchResult result
        (λ x. OpenAnswers Ledger (D.told disk.old) (D.told disk.new) (Ok x.1) × Leaves kind x.1.held.payloads (C.book x.0) × Rests (D.told disk.new) x.1.held × Fits x.1.held (D.told disk.new))
        (λ fault. UnopenedBy kind (D.told disk.old) (D.told disk.new) fault) }
    ensures stops { OpenStops Ledger (D.told disk.old) (D.told disk.new) }
    ensures ledger { D.book disk.new ≡ D.book disk.old }
    ensures beside { D.beside disk.old disk.new }
    ensures later { D.faults disk.old ≤ D.faults disk.new }
    ensures cause { IfErr result (λ fault. fault ≡ KeeperFault.Disk → Rose (D.faults disk.old) (D.faults disk.new)) }
    ensures kept { OnOk result (D.faults disk.new ≡ D.faults disk.old) }
    ensures still { IfErr result (λ fault. fault ≢ KeeperFault.Disk → D.faults disk.new ≡ D.faults disk.old) }
{
    let journal = match Journal::open(alloc, disk, Area::Ledger) {
        Ok(journal) => journal,
        Err(fault) => return Err(fault_of(fault)),
    };
    match read_ledger(alloc, &journal, kind) {
        Ok(core) => Ok((core, journal)),
        Err(fault) => Err(fault),
    }
}

impl<C: LedgerCore, D: Disk> Kept<C, D> {
    /// Writes a new ledger into the area `Ledger` of a disk, over what stood there. The disk is handed back where that failed.
    ///
    /// The area is cut to nothing, an empty journal is opened there, and each payload of the new ledger is appended; no other call is made.
    /// After a stop, or after `Disk`, the area has what stood there before or what a cut leaves of it, or it stands for a prefix of these payloads.
    ///
    /// `Disk` comes only where the disk's count of faults rose. `Memory` comes before the first call on the disk where the ledger or its payloads find none: the area is then as it was.
    /// After the cut it comes only from the opening, for the bytes that are read, or for their list with the room for the payloads: the area is then empty.
    /// `Damaged` comes only from that opening, after its read, and never over a disk that tells, whose area is empty after the cut.
    pub fn found(alloc: Global, disk: D, genesis: &Genesis) -> Result<Kept<C, D>, Unopened<D>>
        ensures found { IfOk result (λ k. (C.book k.core ≡ founded genesis.now) × (k.broken ≡ false) × Rests (D.told k.disk) k.journal.held × IfSome (D.told k.disk) (λ t. k.journal.held.payloads ≡ ledger_payloads C.KIND genesis.now [])) }
        ensures leaves { IfOk result (λ k. IfSome (D.told k.disk) (λ t. Leaves C.KIND k.journal.held.payloads (C.book k.core))) }
        ensures answers { MatchResult result
            (λ k. Makes (found_calls (ledger_payloads C.KIND genesis.now [])) (D.told disk) (D.told k.disk))
            (λ u. UnfoundedBy (ledger_payloads C.KIND genesis.now []) (D.told disk) (D.told u.disk) u.fault) }
        ensures stops { MatchResult result
            (λ k. FoundStops (ledger_payloads C.KIND genesis.now []) (D.told disk) (D.told k.disk))
            (λ u. FoundStops (ledger_payloads C.KIND genesis.now []) (D.told disk) (D.told u.disk)) }
        ensures ledger { MatchResult result (λ k. D.book k.disk ≡ D.book disk) (λ u. D.book u.disk ≡ D.book disk) }
        ensures beside { MatchResult result (λ k. D.beside disk k.disk) (λ u. D.beside disk u.disk) }
        ensures counts { IfOk result (λ k. (k.tally.faults ≡ 0) × (k.tally.wants ≡ 0)) }
        ensures later { MatchResult result (λ k. D.faults disk ≤ D.faults k.disk) (λ u. D.faults disk ≤ D.faults u.disk) }
        ensures cause { IfErr result (λ u. u.fault ≡ KeeperFault.Disk → Rose (D.faults disk) (D.faults u.disk)) }
        ensures kept { MatchResult result (λ k. D.faults k.disk ≡ D.faults disk) (λ u. u.fault ≢ KeeperFault.Disk → D.faults u.disk ≡ D.faults disk) }
    {
        let mut disk = disk;
        match set_up(alloc, &mut disk, C::KIND, genesis) {
            Ok((core, journal)) => Ok(Kept {
                alloc,
                core,
                disk,
                journal,
                broken: false,
                tally: Tally::new(),
            }),
            Err(fault) => Err(Unopened { disk, fault }),
        }
    }

    /// Opens the ledger that a disk's area `Ledger` keeps. The disk is handed back where there is none.
    ///
    /// `Damaged` comes exactly where the journal's opening answers it, `Empty` where the journal has no record, and `Record` for the first record that may not stand where it does: one that doesn't decode, is in a wrong place, names another kind, is refused by the genesis, or isn't answered with `Done`.
    /// `Disk` comes only where the disk's count of faults rose.
    pub fn open(alloc: Global, disk: D) -> Result<Kept<C, D>, Unopened<D>>
        ensures opened { MatchResult result
            (λ k. OpenAnswers Ledger (D.told disk) (D.told k.disk) (Ok k.journal) × Leaves C.KIND k.journal.held.payloads (C.book k.core) × Rests (D.told k.disk) k.journal.held × (k.broken ≡ false))
            (λ u. UnopenedBy C.KIND (D.told disk) (D.told u.disk) u.fault) }
        ensures stops { MatchResult result (λ k. OpenStops Ledger (D.told disk) (D.told k.disk)) (λ u. OpenStops Ledger (D.told disk) (D.told u.disk)) }
        ensures ledger { MatchResult result (λ k. D.book k.disk ≡ D.book disk) (λ u. D.book u.disk ≡ D.book disk) }
        ensures beside { MatchResult result (λ k. D.beside disk k.disk) (λ u. D.beside disk u.disk) }
        ensures counts { IfOk result (λ k. (k.tally.faults ≡ 0) × (k.tally.wants ≡ 0)) }
        ensures later { MatchResult result (λ k. D.faults disk ≤ D.faults k.disk) (λ u. D.faults disk ≤ D.faults u.disk) }
        ensures cause { IfErr result (λ u. u.fault ≡ KeeperFault.Disk → Rose (D.faults disk) (D.faults u.disk)) }
        ensures kept { MatchResult result (λ k. D.faults k.disk ≡ D.faults disk) (λ u. u.fault ≢ KeeperFault.Disk → D.faults u.disk ≡ D.faults disk) }
    {
        let mut disk = disk;
        match open_ledger(alloc, &mut disk, C::KIND) {
            Ok((core, journal)) => Ok(Kept {
                alloc,
                core,
                disk,
                journal,
                broken: false,
                tally: Tally::new(),
            }),
            Err(fault) => Err(Unopened { disk, fault }),
        }
    }

    /// Asks for an operation, without counting faults of the keeper's own.
    fn operate(
        &mut self,
        op: LedgerOp,
        session: SessionId,
        terms: &Terms,
    ) -> Result<Answer, KeeperFault>
        ensures answers { KeepAnswers op session terms.now (C.book self.old.core) (C.book self.new.core) self.old.journal.held self.new.journal.held (D.told self.old.disk) (D.told self.new.disk) result }
        ensures stops { AppendStops (payload_of (stored.Act op session terms.now)) self.old.journal.held (D.told self.old.disk) (D.told self.new.disk) }
        ensures rests { self.new.broken ≡ false → RestsStill Ledger self.old.journal.held.payloads self.new.journal.held.payloads (D.told self.old.disk) (D.told self.new.disk) }
        ensures leaves { Leaves C.KIND self.old.journal.held.payloads (C.book self.old.core) → self.new.broken ≡ false → Leaves C.KIND self.new.journal.held.payloads (C.book self.new.core) }
        ensures tally { self.new.tally ≡ self.old.tally }
        ensures ledger { D.book self.new.disk ≡ D.book self.old.disk }
        ensures beside { D.beside self.old.disk self.new.disk }
        ensures later { D.faults self.old.disk ≤ D.faults self.new.disk }
        ensures disk { IfErr result (λ fault. fault ≡ KeeperFault.Disk → Rose (D.faults self.old.disk) (D.faults self.new.disk)) }
        ensures kept { OnOk result (D.faults self.new.disk ≡ D.faults self.old.disk) }
        ensures still { IfErr result (λ fault. fault ≢ KeeperFault.Disk → D.faults self.new.disk ≡ D.faults self.old.disk) }
    {
        if self.broken {
            return Err(KeeperFault::Broken);
        }
        match keep(
            self.alloc,
            &mut self.core,
            &mut self.journal,
            &mut self.disk,
            op,
            session,
            terms,
        ) {
            Ok(answer) => Ok(answer),
            Err(fault) => {
                self.broken = is_disk(fault);
                Err(fault)
            }
        }
    }

    /// Operates on the entry of a session, and answers as the core does. One append stores an operation that changes an entry; every other operation leaves the disk alone.
    ///
    /// `Memory` leaves all as it was, and comes before any call on the disk. `Disk` comes only where the disk's count of faults rose, and `Broken` exactly where a call answered `Disk` before.
    pub fn act(
        &mut self,
        op: LedgerOp,
        session: SessionId,
        terms: &Terms,
    ) -> Result<Answer, KeeperFault>
        ensures answers { KeepAnswers op session terms.now (C.book self.old.core) (C.book self.new.core) self.old.journal.held self.new.journal.held (D.told self.old.disk) (D.told self.new.disk) result }
        ensures stops { AppendStops (payload_of (stored.Act op session terms.now)) self.old.journal.held (D.told self.old.disk) (D.told self.new.disk) }
        ensures rests { self.new.broken ≡ false → RestsStill Ledger self.old.journal.held.payloads self.new.journal.held.payloads (D.told self.old.disk) (D.told self.new.disk) }
        ensures leaves { Leaves C.KIND self.old.journal.held.payloads (C.book self.old.core) → self.new.broken ≡ false → Leaves C.KIND self.new.journal.held.payloads (C.book self.new.core) }
        ensures faults { self.new.tally.faults ≡ count_behind faults_after self.old.tally.faults result }
        ensures wants { self.new.tally.wants ≡ count_behind wants_after self.old.tally.wants result }
        ensures ledger { D.book self.new.disk ≡ D.book self.old.disk }
        ensures beside { D.beside self.old.disk self.new.disk }
        ensures later { D.faults self.old.disk ≤ D.faults self.new.disk }
        ensures disk { IfErr result (λ fault. fault ≡ KeeperFault.Disk → Rose (D.faults self.old.disk) (D.faults self.new.disk)) }
        ensures kept { OnOk result (D.faults self.new.disk ≡ D.faults self.old.disk) }
        ensures still { IfErr result (λ fault. fault ≢ KeeperFault.Disk → D.faults self.new.disk ≡ D.faults self.old.disk) }
        ensures cause { HasCause (D.faults self.old.disk + self.old.tally.faults) (D.faults self.new.disk + self.new.tally.faults) result }
    {
        match self.operate(op, session, terms) {
            Ok(answer) => Ok(answer),
            Err(fault) => {
                self.tally.note(fault);
                Err(fault)
            }
        }
    }

    /// The ledger itself. Where the keeper is broken, it may have an operation more than the disk.
    pub fn core(&self) -> &C
        ensures { result.now ≡ self.now.core }
    {
        &self.core
    }

    /// How many calls found no memory. The number stands still at its end.
    pub fn wants(&self) -> u64
        ensures { result ≡ self.now.tally.wants }
    {
        self.tally.wants
    }

    /// The disk as it is.
    pub fn into_disk(self) -> D
        ensures { result ≡ self.disk }
    {
        let Kept { disk, .. } = self;
        disk
    }
}

fn is_disk(fault: KeeperFault) -> bool
    ensures { IsTrue result ↔ (fault ≡ KeeperFault.Disk) }
{
    matches!(fault, KeeperFault::Disk)
}

/// A fault of the keeper, as a ledger answers it.
fn act_fault(fault: KeeperFault) -> ActFault
    ensures { result ≡ act_fault fault }
{
    match fault {
        KeeperFault::OutOfOrder { entry } => ActFault::OutOfOrder { entry },
        _ => ActFault::Failed,
    }
}

impl<C: LedgerCore, D: Disk> Device for Kept<C, D> {
    ghost use Rattle.satp_keeper.specs.Telling.{untold_keeps};

    ghost told = { λ k. None };

    ghost book = { λ k. Some (C.book k.core) };

    ghost faults = { λ k. D.faults k.disk + k.tally.faults };

    ghost beside = { λ a b. D.beside a.disk b.disk };

    ghost keeps_model = { λ k t is. untold_keeps t is };

    ghost beside_same = { λ k. D.beside_same k.disk };

    ghost beside_then = { λ a b c first then'. D.beside_then a.disk b.disk c.disk first then' };
}

impl<C: LedgerCore, D: Disk> Ledger for Kept<C, D> {
    ghost use Rattle.std.specs.Prelude.{◌≡◌, ◌+◌, List, [], None, Some, Result, IfOk, IfErr, IfSome, if◌then◌else◌};
    ghost use Rattle.satp_base.specs.Streams.{HasCause};
    ghost use Rattle.satp_base.specs.Acts.{ActsOn, Asks, MayAdd, MayAnswer, MayRefuse};
    ghost use Rattle.satp_base.specs.LedgerRule.{entry_of};
    ghost use Rattle.satp_base.specs.declared.area.Event.{Event};
    ghost use Rattle.satp_base.specs.declared.area.Event.TheVariants.{Acted};
    ghost use Rattle.satp_base.specs.declared.ledger.Answer.{Answer};
    ghost use Rattle.satp_base.specs.declared.ledger.LedgerCall.TheVariants.{Act, Look};
    ghost use Rattle.satp_keeper.specs.Operating.{KeepAnswers, act_answer, count_behind, faults_after, looked, shown, wants_after};
    ghost use Rattle.satp_keeper.specs.declared.fault.KeeperFault.{KeeperFault};

    /// As [`Kept::act`]. Its `Disk`, `Broken` and `Memory` are answered as `Failed`.
    fn act(&mut self, op: LedgerOp, session: SessionId, terms: &Terms) -> Result<Answer, ActFault>
        ensures answer { IfOk result (MayAnswer op) }
        ensures refused { IfErr result (MayRefuse op) }
        ensures told { (events : List Event) × MayAdd (Acted op session terms.now) result events
            × ActsOn op session terms.now (C.book self.old.core) result events (Some (C.book self.new.core))
            × Asks (Act op session terms.now) events result None None }
        ensures cause { HasCause (D.faults self.old.disk + self.old.tally.faults) (D.faults self.new.disk + self.new.tally.faults) result }
        ensures kept { (inner : Result Answer KeeperFault) × (result ≡ act_answer inner)
            × KeepAnswers op session terms.now (C.book self.old.core) (C.book self.new.core) self.old.journal.held self.new.journal.held (D.told self.old.disk) (D.told self.new.disk) inner
            × (self.new.tally.faults ≡ count_behind faults_after self.old.tally.faults inner) × (self.new.tally.wants ≡ count_behind wants_after self.old.tally.wants inner) }
        ensures ledger { D.book self.new.disk ≡ D.book self.old.disk }
        ensures beside { D.beside self.old.disk self.new.disk }
    {
        match Kept::act(self, op, session, terms) {
            Ok(answer) => Ok(answer),
            Err(fault) => Err(act_fault(fault)),
        }
    }

    /// It fails exactly where a call answered `Disk` before, and makes no call on the disk.
    fn look(&mut self, session: SessionId) -> Result<Entry, ActFault>
        ensures shown { result ≡ shown self.old.broken (entry_of (C.book self.old.core).entries session) }
        ensures faults { self.new.tally.faults ≡ looked self.old.broken self.old.tally.faults }
        ensures wants { self.new.tally.wants ≡ self.old.tally.wants }
        ensures core { self.new.core ≡ self.old.core }
        ensures journal { self.new.journal ≡ self.old.journal }
        ensures disk { self.new.disk ≡ self.old.disk }
        ensures broken { self.new.broken ≡ self.old.broken }
    {
        if self.broken {
            self.tally.note(KeeperFault::Broken);
            return Err(ActFault::Failed);
        }
        Ok(self.core.entry(session))
    }
}
