ghost use Rattle.std.specs.Prelude.{◌≡◌, List, [], Option, Some, None, IfOk, IfErr, IfSome};
ghost use Rattle.satp_base.specs.Streams.{HasCause};
ghost use Rattle.satp_base.specs.Calls.{Told, asked, made};
ghost use Rattle.satp_base.specs.Money.{Book, free_of, free_sum_of, total_of};
ghost use Rattle.satp_base.specs.LedgerRule.{entry_of};
ghost use Rattle.satp_base.specs.LedgerAt.{ledger_at};
ghost use Rattle.satp_base.specs.Soundness.{IsSound};
ghost use Rattle.satp_base.specs.Acts.{ActsOn, Applies, Asks, FoundEvents, FoundsBook, MayAdd, MayAnswer, MayRefuse, founded};
ghost use Rattle.satp_base.specs.declared.area.Event.{Event};
ghost use Rattle.satp_base.specs.declared.area.Event.TheVariants.{Acted};
ghost use Rattle.satp_base.specs.declared.ledger.LedgerCall.TheVariants.{Found, Raise, Act, Look};
ghost use Rattle.satp_base.specs.declared.ledger.LedgerKind.{LedgerKind};

use crate::device::{Device, Disk};
use crate::genesis::Genesis;
use crate::ledger::{ActFault, Answer, CoreFault, Entry, LedgerKind, LedgerOp};
use crate::message::Terms;
use crate::name::Name;
use crate::session::SessionId;
use crate::text::Memory;
use std::alloc::Global;

/// A site's ledger was not founded or not opened.
#[derive(Clone, Copy, Debug, PartialEq, Eq)]
pub struct SiteFault;

/// A ledger: an entry for each session, kept for good, and what owners are free to use.
///
/// Each call answers a fault only where the count of faults rose in it, or stands at the end of its type.
pub trait Ledger: Device {
    /// Operates on the entry of a session, and answers as the rule of ledgers says.
    ///
    /// `OutOfOrder` comes exactly where the rule has no answer, and so never to a lock or a mint.
    /// A failed operation took effect or did not; it takes effect, if at all, before the call ends.
    /// A ledger that tells nothing doesn't begin to tell by an operation.
    fn act(&mut self, op: LedgerOp, session: SessionId, terms: &Terms) -> Result<Answer, ActFault>
        ensures answer { IfOk result (MayAnswer op) }
        ensures refused { IfErr result (MayRefuse op) }
        ensures told { (events : List Event) × MayAdd (Acted op session terms.now) result events
            × IfSome (Self.book self.old) (λ b. ActsOn op session terms.now b result events (Self.book self.new))
            × Asks (Act op session terms.now) events result (Self.told self.old) (Self.told self.new) }
        ensures untold { Self.book self.old ≡ None → Self.book self.new ≡ None }
        ensures beside { Self.beside self.old self.new }
        ensures cause { HasCause (Self.faults self.old) (Self.faults self.new) result };

    /// The entry of a session. It fails by `Failed` alone.
    fn look(&mut self, session: SessionId) -> Result<Entry, ActFault>
        ensures entry { IfOk result (λ entry. IfSome (Self.book self.old) (λ b. entry ≡ entry_of b.entries session)) }
        ensures fault { IfErr result (λ fault. fault ≡ ActFault.Failed) }
        ensures told { Asks (Look session) [] result (Self.told self.old) (Self.told self.new) }
        ensures ledger { Self.book self.new ≡ Self.book self.old }
        ensures beside { Self.beside self.old self.new }
        ensures cause { HasCause (Self.faults self.old) (Self.faults self.new) result };
}

/// A disk and a ledger at one place, with one count of faults.
///
/// Where it tells, operations and foundings of the ledger stand among the events of the disk, in order.
pub trait Site: Disk + Ledger {
    /// Sets the ledger up anew, and drops what stood there. After a failure nothing is told of the ledger until a founding succeeds.
    fn found(&mut self, kind: LedgerKind, genesis: &Genesis) -> Result<(), SiteFault>
        ensures told { (events : List Event) × FoundEvents result events
            × Asks (Found kind genesis.now) events result (Self.told self.old) (Self.told self.new) }
        ensures ledger { FoundsBook genesis.now result (Self.told self.old) (Self.book self.new) }
        ensures beside { Self.beside self.old self.new }
        ensures cause { HasCause (Self.faults self.old) (Self.faults self.new) result };

    /// Opens the ledger that was founded.
    fn raise(&mut self) -> Result<(), SiteFault>
        ensures told { Asks Raise [] result (Self.told self.old) (Self.told self.new) }
        ensures ledger { Self.book self.new ≡ Self.book self.old }
        ensures beside { Self.beside self.old self.new }
        ensures cause { HasCause (Self.faults self.old) (Self.faults self.new) result };

    /// The entries that are told are those that the trail leaves.
    ghost one_ledger: { (site : Self) (t : Told) (b : Book) → Self.told site ≡ Some t → Self.book site ≡ Some b → b.entries ≡ ledger_at t.trail.entries t.trail.events };
}

/// A ledger in memory, without a disk.
pub trait LedgerCore: Drop {
    /// What the ledger was founded with, and its entries since.
    ghost book: { Self → Book };

    /// Which kind of ledger it is.
    const KIND: LedgerKind;

    ghost KIND: { LedgerKind };

    /// A ledger with the first holdings of a genesis and no entry.
    fn begin(alloc: Global, genesis: &Genesis) -> Result<Self, Memory>
        ensures { IfOk result (λ core. book core ≡ founded genesis.now) };

    /// Operates on the entry of a session. `OutOfOrder` comes exactly where the rule has no answer; after each fault all is as it was.
    fn apply(
        &mut self,
        op: LedgerOp,
        session: SessionId,
        terms: &Terms,
    ) -> Result<Answer, CoreFault>
        ensures { Applies op session terms.now (book self.old) result (book self.new) };

    /// The entry of a session; `Absent` where no operation has changed it.
    fn entry(&self, session: SessionId) -> Entry
        ensures { result ≡ entry_of (book self.now).entries session };

    /// How many units of an asset an owner is free to use.
    fn free(&self, asset: Name, owner: Name) -> u64
        ensures { result ≡ free_of (book self.now) asset owner };

    /// How many units of an asset all owners together are free to use.
    fn free_sum(&self, asset: Name) -> u64
        ensures { result ≡ free_sum_of (book self.now) asset };

    /// How many units of an asset there are: free, locked or minted.
    fn total(&self, asset: Name) -> u64
        ensures { result ≡ total_of (book self.now) asset };

    /// Nobody has less than nothing, and no asset passes its cap.
    ghost sound: { (core : Self) → IsSound (book core) };
}
