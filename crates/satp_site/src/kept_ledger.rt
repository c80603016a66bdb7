ghost use Rattle.std.specs.Prelude.{◌≡◌, ◌≤◌, ◌↔◌, [], None, IfErr, IfOk, IsTrue, MatchResult};
ghost use Rattle.satp_keeper.specs.Books.{ledger_payloads};
ghost use Rattle.satp_keeper.specs.Founding.{UnfoundedBy};
ghost use Rattle.satp_site.specs.Keeping.{HasFailed, IsFounded, IsRaised, IsUnraised};

use crate::directory::Directory;
use satp_accounts::Accounts;
use satp_base::{
    ActFault, Answer, Device, Disk, DiskFault, Entry, Genesis, Ledger, LedgerKind, LedgerOp,
    SessionId, SiteFault, Terms,
};
use satp_keeper::{KeeperFault, Kept, Unopened};
use satp_outputs::Outputs;
use std::alloc::Global;

/// A kept ledger of either kind.
#[derive(Drop)]
pub enum KeptLedger<D: Disk + Drop> {
    Accounts(Kept<Accounts, D>),
    Outputs(Kept<Outputs, D>),
}

impl<D: Disk + Drop> KeptLedger<D> {
    ghost use Rattle.std.specs.Prelude.{option_map};
    ghost use Rattle.satp_base.specs.Acts.{MayAnswer, MayRefuse};
    ghost use Rattle.satp_site.specs.Ledgers.{state_of};
    ghost use Rattle.satp_site.specs.Sites.{SiteActs, SiteLooks};

    /// A new ledger of a kind. What stood on the disk is dropped.
    ///
    /// It fails exactly where the keeper of that kind does, with its fault.
    pub fn found(
        alloc: Global,
        disk: D,
        kind: LedgerKind,
        genesis: &Genesis,
    ) -> Result<KeptLedger<D>, Unopened<D>>
        ensures founded { IfOk result (λ l. IsFounded kind genesis.now (D.told disk) (state_of l)) }
        ensures fault { IfErr result (λ u. UnfoundedBy (ledger_payloads kind genesis.now []) (D.told disk) (D.told u.disk) u.fault) }
        ensures cause { MatchResult result (λ l. (state_of l).disk_faults ≡ D.faults disk) (λ u. HasFailed u.fault (D.faults disk) (D.faults u.disk)) }
    {
        match kind {
            LedgerKind::Accounts => match Kept::found(alloc, disk, genesis) {
                Ok(kept) => Ok(KeptLedger::Accounts(kept)),
                Err(unopened) => Err(unopened),
            },
            LedgerKind::Outputs => match Kept::found(alloc, disk, genesis) {
                Ok(kept) => Ok(KeptLedger::Outputs(kept)),
                Err(unopened) => Err(unopened),
            },
        }
    }

    /// The ledger that stands on the disk. Its first record names its kind, and the keeper of the other kind refuses that record.
    ///
    /// It fails exactly where the keeper of accounts gives up on anything else, and where it refuses that record and the keeper of outputs gives up.
    pub fn open(alloc: Global, disk: D) -> Result<KeptLedger<D>, Unopened<D>>
        ensures opened { MatchResult result (λ l. IsRaised (D.told disk) (state_of l)) (λ u. IsUnraised (D.told disk) (D.told u.disk) u.fault) }
        ensures cause { MatchResult result (λ l. (state_of l).disk_faults ≡ D.faults disk) (λ u. HasFailed u.fault (D.faults disk) (D.faults u.disk)) }
    {
        let unopened = match Kept::open(alloc, disk) {
            Ok(kept) => return Ok(KeptLedger::Accounts(kept)),
            Err(unopened) => unopened,
        };
        if is_first_record(unopened.fault) {
            return match Kept::open(alloc, unopened.disk) {
                Ok(kept) => Ok(KeptLedger::Outputs(kept)),
                Err(unopened) => Err(unopened),
            };
        }
        Err(unopened)
    }

    /// The disk as it is.
    pub fn into_disk(self) -> D
        ensures told { D.told result ≡ (state_of self).told }
        ensures faults { D.faults result ≡ (state_of self).disk_faults }
    {
        match self {
            KeptLedger::Accounts(kept) => kept.into_disk(),
            KeptLedger::Outputs(kept) => kept.into_disk(),
        }
    }

    /// An operation on the ledger that is held. Without one it fails.
    pub fn act_on(
        held: &mut Option<KeptLedger<D>>,
        op: LedgerOp,
        session: SessionId,
        terms: &Terms,
    ) -> Result<Answer, ActFault>
        ensures answer { IfOk result (MayAnswer op) }
        ensures refused { IfErr result (MayRefuse op) }
        ensures acts { SiteActs op session terms.now (option_map state_of held.old) result (option_map state_of held.new) }
    {
        match held {
            Some(ledger) => ledger.act(op, session, terms),
            None => Err(ActFault::Failed),
        }
    }

    /// The entry that the ledger shows which is held. Without one it fails.
    pub fn look_at(held: &mut Option<KeptLedger<D>>, session: SessionId) -> Result<Entry, ActFault>
        ensures fault { IfErr result (λ fault. fault ≡ ActFault.Failed) }
        ensures looks { SiteLooks session (option_map state_of held.old) result (option_map state_of held.new) }
    {
        match held {
            Some(ledger) => ledger.look(session),
            None => Err(ActFault::Failed),
        }
    }
}

impl<D: Directory> KeptLedger<D> {
    ghost use Rattle.satp_site.specs.Ledgers.{state_of};
    ghost use Rattle.satp_site.specs.Directories.{directory_state};
    ghost use Rattle.satp_site.specs.Sites.{IsFoundedOn, IsRaisedOn, IsUnfounded, IsUnopened};

    /// A new ledger of a kind, on the second disk in the directory of this one. That is given back where there is none.
    ///
    /// It fails only where there is no such disk, or where the keeper of that kind fails.
    pub fn found_on_second(
        alloc: Global,
        disk: &mut D,
        kind: LedgerKind,
        genesis: &Genesis,
    ) -> Result<KeptLedger<D>, SiteFault>
        ensures { let shown = directory_state D.told D.faults D.second_state in
            MatchResult result (λ l. IsFoundedOn kind genesis.now (shown disk.old) (shown disk.new) (state_of l)) (λ _. IsUnfounded kind genesis.now (shown disk.old) (shown disk.new)) }
    {
        let second = match disk.second() {
            Ok(second) => second,
            Err(DiskFault) => return Err(SiteFault),
        };
        match KeptLedger::found(alloc, second, kind, genesis) {
            Ok(ledger) => Ok(ledger),
            Err(unfounded) => {
                disk.give_back(unfounded.disk);
                Err(SiteFault)
            }
        }
    }

    /// The ledger that stands on the second disk in the directory of this one. That is given back where there is none.
    ///
    /// It fails only where there is no such disk, or where the keepers fail.
    pub fn open_on_second(alloc: Global, disk: &mut D) -> Result<KeptLedger<D>, SiteFault>
        ensures { let shown = directory_state D.told D.faults D.second_state in
            MatchResult result (λ l. IsRaisedOn (shown disk.old) (shown disk.new) (state_of l)) (λ _. IsUnopened (shown disk.old) (shown disk.new)) }
    {
        let second = match disk.second() {
            Ok(second) => second,
            Err(DiskFault) => return Err(SiteFault),
        };
        match KeptLedger::open(alloc, second) {
            Ok(ledger) => Ok(ledger),
            Err(unopened) => {
                disk.give_back(unopened.disk);
                Err(SiteFault)
            }
        }
    }
}

/// The first record was refused.
fn is_first_record(fault: KeeperFault) -> bool
    ensures { IsTrue result ↔ (fault ≡ KeeperFault.Record 0) }
{
    fault == KeeperFault::Record { index: 0 }
}

impl<D: Disk + Drop> Device for KeptLedger<D> {
    ghost use Rattle.std.specs.Prelude.{◌+◌, Some};
    ghost use Rattle.satp_keeper.specs.Telling.{untold_keeps};
    ghost use Rattle.satp_site.specs.Ledgers.{state_of};

    ghost told = { λ l. None };

    ghost book = { λ l. Some (state_of l).book };

    ghost faults = { λ l. (state_of l).disk_faults + (state_of l).own_faults };

    ghost keeps_model = { λ l t is. untold_keeps t is };

    ghost beside_same = { λ _. tt };

    ghost beside_then = { λ _ _ _ _ _. tt };
}

impl<D: Disk + Drop> Ledger for KeptLedger<D> {
    ghost use Rattle.std.specs.Prelude.{◌≡◌, ◌+◌, List, [], None, Some, IfOk, IfErr};
    ghost use Rattle.satp_base.specs.Streams.{HasCause};
    ghost use Rattle.satp_base.specs.Acts.{ActsOn, Asks, MayAdd, MayAnswer, MayRefuse};
    ghost use Rattle.satp_base.specs.declared.area.Event.{Event};
    ghost use Rattle.satp_base.specs.declared.area.Event.TheVariants.{Acted};
    ghost use Rattle.satp_base.specs.declared.ledger.LedgerCall.TheVariants.{Act};
    ghost use Rattle.satp_site.specs.Keeping.{KeptActs, KeptLooks};
    ghost use Rattle.satp_site.specs.Ledgers.{state_of};

    /// As the keeper of its kind answers it.
    fn act(&mut self, op: LedgerOp, session: SessionId, terms: &Terms) -> Result<Answer, ActFault>
        ensures answer { IfOk result (MayAnswer op) }
        ensures refused { IfErr result (MayRefuse op) }
        ensures told { (events : List Event) × MayAdd (Acted op session terms.now) result events
            × ActsOn op session terms.now (state_of self.old).book result events (Some (state_of self.new).book)
            × Asks (Act op session terms.now) events result None None }
        ensures kept { KeptActs op session terms.now (state_of self.old) result (state_of self.new) }
        ensures cause { HasCause ((state_of self.old).disk_faults + (state_of self.old).own_faults) ((state_of self.new).disk_faults + (state_of self.new).own_faults) result }
    {
        match self {
            KeptLedger::Accounts(kept) => Ledger::act(kept, op, session, terms),
            KeptLedger::Outputs(kept) => Ledger::act(kept, op, session, terms),
        }
    }

    /// It fails exactly where a call on the disk failed before.
    fn look(&mut self, session: SessionId) -> Result<Entry, ActFault>
        ensures shown { KeptLooks session (state_of self.old) result (state_of self.new) }
    {
        match self {
            KeptLedger::Accounts(kept) => kept.look(session),
            KeptLedger::Outputs(kept) => kept.look(session),
        }
    }
}
