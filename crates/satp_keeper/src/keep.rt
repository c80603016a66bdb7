//! One operation on a ledger that is kept.

ghost use Rattle.std.specs.Prelude.{◌≡◌, ◌≢◌, ◌≤◌, ◌↔◌, false, IfErr, OnOk, IsTrue};
ghost use Rattle.satp_base.specs.Streams.{Rose};
ghost use Rattle.satp_journal.specs.Appending.{AppendStops, RestsStill};
ghost use Rattle.satp_journal.specs.State.{Fits};
ghost use Rattle.satp_records.specs.Formats.{payload_of};
ghost use Rattle.satp_records.specs.declared.stored.Stored.TheVariants as stored;
ghost use Rattle.satp_keeper.specs.Operating.{ApplyAnswers, KeepAnswers};

use crate::fault::KeeperFault;
use satp_base::{Answer, CoreFault, Disk, Entry, LedgerCore, LedgerOp, Memory, SessionId, Terms};
use satp_journal::Journal;
use satp_records::{Stored, encode};
use std::alloc::Global;

fn is_same(a: Entry, b: Entry) -> bool
    ensures { IsTrue result ↔ (a ≡ b) }
{
    a == b
}

/// The answer of a ledger, and whether the operation changes an entry.
fn apply<C: LedgerCore>(
    core: &mut C,
    op: LedgerOp,
    session: SessionId,
    terms: &Terms,
) -> Result<(Answer, bool), KeeperFault>
    ensures { ApplyAnswers op session terms.now (C.book core.old) (C.book core.new) result }
{
    let before = core.entry(session);
    match core.apply(op, session, terms) {
        Ok(answer) => {
            let after = core.entry(session);
            Ok((answer, !is_same(after, before)))
        }
        Err(CoreFault::OutOfOrder { entry }) => Err(KeeperFault::OutOfOrder { entry }),
        Err(CoreFault::Memory) => Err(KeeperFault::Memory),
    }
}

/// Asks a ledger for an operation, and stores it where it changes an entry.
///
/// All memory is found before the ledger changes. Where a ledger has changed and isn't stored, its journal is broken.
pub(crate) fn keep<C: LedgerCore, D: Disk>(
    alloc: Global,
    core: &mut C,
    journal: &mut Journal,
    disk: &mut D,
    op: LedgerOp,
    session: SessionId,
    terms: &Terms,
) -> Result<Answer, KeeperFault>
    requires whole { journal.old.held.broken ≡ false }
    requires fits { Fits journal.old.held (D.told disk.old) }
    ensures answers { KeepAnswers op session terms.now (C.book core.old) (C.book core.new) journal.old.held journal.new.held (D.told disk.old) (D.told disk.new) result }
    ensures stops { AppendStops (payload_of (stored.Act op session terms.now)) journal.old.held (D.told disk.old) (D.told disk.new) }
    ensures rests { journal.new.held.broken ≡ false → RestsStill journal.old.held.area journal.old.held.payloads journal.new.held.payloads (D.told disk.old) (D.told disk.new) }
    ensures fits { journal.new.held.broken ≡ false → Fits journal.new.held (D.told disk.new) }
    ensures ledger { D.book disk.new ≡ D.book disk.old }
    ensures beside { D.beside disk.old disk.new }
    ensures later { D.faults disk.old ≤ D.faults disk.new }
    ensures cause { IfErr result (λ fault. fault ≡ KeeperFault.Disk → Rose (D.faults disk.old) (D.faults disk.new)) }
    ensures kept { OnOk result (D.faults disk.new ≡ D.faults disk.old) }
    ensures still { IfErr result (λ fault. fault ≢ KeeperFault.Disk → D.faults disk.new ≡ D.faults disk.old) }
{
    let payload = match encode(
        alloc,
        &Stored::Act {
            op,
            session,
            terms: *terms,
        },
    ) {
        Ok(payload) => payload,
        Err(Memory) => return Err(KeeperFault::Memory),
    };
    match journal.reserve(1, payload.bytes().len()) {
        Ok(()) => {}
        Err(_) => return Err(KeeperFault::Memory),
    }
    let (answer, changed) = match apply(core, op, session, terms) {
        Ok(applied) => applied,
        Err(fault) => return Err(fault),
    };
    if !changed {
        return Ok(answer);
    }
    match journal.append(disk, payload.bytes()) {
        Ok(()) => Ok(answer),
        Err(_) => Err(KeeperFault::Disk),
    }
}
