//! A new ledger on a disk.

ghost use Rattle.std.specs.Prelude.{◌≡◌, ◌≢◌, ◌≤◌, ◌+◌, ◌∷◌, ◌++◌, [], false, length, IfErr, IfOk, OnErr, OnOk, IfSome, MatchResult};
ghost use Rattle.std.specs.List.{AllByRecursion, sum_by};
ghost use Rattle.satp_base.specs.Acts.{founded};
ghost use Rattle.satp_base.specs.Calls.{FailsAmong, Makes};
ghost use Rattle.satp_base.specs.Format.{IsPayload};
ghost use Rattle.satp_base.specs.Genesis.{IsGenesis};
ghost use Rattle.satp_base.specs.Streams.{HasCause, Rose};
ghost use Rattle.satp_base.specs.declared.area.Area.TheVariants.{Ledger};
ghost use Rattle.satp_journal.specs.Opening.{Rests};
ghost use Rattle.satp_journal.specs.State.{Fits};
ghost use Rattle.satp_records.specs.Formats.{IsFormed, payload_of};
ghost use Rattle.satp_keeper.specs.Books.{Leaves, ledger_payloads};
ghost use Rattle.satp_keeper.specs.Founding.{UnfoundedBy, asset_payloads, clear_calls, found_calls, hold_payloads, stored_calls};

use crate::fault::{KeeperFault, fault_of};
use satp_base::{
    Amount, Area, Disk, DiskFault, Genesis, LedgerCore, LedgerKind, Memory, Name, Texts,
};
use satp_journal::Journal;
use satp_records::{Stored, encode};
use std::alloc::Global;

/// Puts the payload of a record behind the others.
fn push_record(alloc: Global, texts: &mut Texts, stored: &Stored) -> Result<(), Memory>
    requires { IsFormed stored.now }
    ensures { OnOk result (texts.new ≡ texts.old ++ payload_of stored.now ∷ []) }
{
    let payload = encode(alloc, stored)?;
    match texts.push(payload) {
        Ok(()) => Ok(()),
        Err(_) => Err(Memory),
    }
}

fn push_asset(alloc: Global, texts: &mut Texts, asset: Option<(Name, Amount)>) -> Result<(), Memory>
    ensures { OnOk result (texts.new ≡ texts.old ++ asset_payloads asset) }
{
    match asset {
        Some((name, cap)) => push_record(
            alloc,
            texts,
            &Stored::Asset {
                name,
                cap: cap.get(),
            },
        ),
        None => Ok(()),
    }
}

fn push_hold(
    alloc: Global,
    texts: &mut Texts,
    hold: Option<(Name, Name, Amount)>,
) -> Result<(), Memory>
    ensures { OnOk result (texts.new ≡ texts.old ++ hold_payloads hold) }
{
    match hold {
        Some((asset, owner, amount)) => push_record(
            alloc,
            texts,
            &Stored::Hold {
                asset,
                owner,
                amount,
            },
        ),
        None => Ok(()),
    }
}

/// The payloads of a ledger without operations.
fn first_payloads(alloc: Global, kind: LedgerKind, genesis: &Genesis) -> Result<Texts, Memory>
    ensures list { IfOk result (λ texts. texts ≡ ledger_payloads kind genesis.now []) }
    ensures valid { OnOk result (IsGenesis genesis.now) }
{
    let mut texts = Texts::new(alloc);
    push_record(alloc, &mut texts, &Stored::Kind(kind))?;
    for index in 0..Genesis::ASSETS {
        push_asset(alloc, &mut texts, genesis.asset_at(index))?;
    }
    for place in 0..Genesis::HOLDS {
        push_hold(alloc, &mut texts, genesis.hold_at(place))?;
    }
    Ok(texts)
}

/// How many bytes payloads have together.
fn size_of(texts: &Texts) -> usize
    requires few { length texts.now ≤ 1 + 16 + 256 }
    requires payloads { AllByRecursion IsPayload texts.now }
    ensures { result ≡ sum_by length texts.now }
{
    let mut size = 0;
    for index in 0..texts.length() {
        let Some(text) = texts.get(index) else {
            unreachable!();
        };
        size += text.bytes().len();
    }
    size
}

/// Cuts the area to nothing, and opens the journal there with room for so many records, and for so many bytes of their payloads together.
fn open_empty<D: Disk>(
    alloc: Global,
    disk: &mut D,
    records: usize,
    bytes: usize,
) -> Result<Journal, KeeperFault>
    ensures opened { IfOk result (λ journal. (journal.held.area ≡ Ledger) × (journal.held.broken ≡ false) × Fits journal.held (D.told disk.new) × Rests (D.told disk.new) journal.held × IfSome (D.told disk.new) (λ t. journal.held.payloads ≡ [])) }
    ensures records { IfOk result (λ journal. records ≤ journal.spare_records) }
    ensures bytes { IfOk result (λ journal. bytes ≤ journal.spare_bytes) }
    ensures answers { MatchResult result (λ journal. Makes clear_calls (D.told disk.old) (D.told disk.new)) (λ fault. UnfoundedBy [] (D.told disk.old) (D.told disk.new) fault) }
    ensures ledger { D.book disk.new ≡ D.book disk.old }
    ensures beside { D.beside disk.old disk.new }
    ensures later { D.faults disk.old ≤ D.faults disk.new }
    ensures cause { IfErr result (λ fault. fault ≡ KeeperFault.Disk → Rose (D.faults disk.old) (D.faults disk.new)) }
    ensures kept { OnOk result (D.faults disk.new ≡ D.faults disk.old) }
    ensures still { IfErr result (λ fault. fault ≢ KeeperFault.Disk → D.faults disk.new ≡ D.faults disk.old) }
{
    match disk.cut(Area::Ledger, 0) {
        Ok(()) => {}
        Err(DiskFault) => return Err(KeeperFault::Disk),
    }
    match Journal::open_with_room(alloc, disk, Area::Ledger, records, bytes) {
        Ok(journal) => Ok(journal),
        Err(fault) => Err(fault_of(fault)),
    }
}

/// Appends payloads to an empty journal that has the room for them, one after the other.
fn append_all<D: Disk>(disk: &mut D, journal: &mut Journal, texts: &Texts) -> Result<(), DiskFault>
    requires area { journal.old.held.area ≡ Ledger }
    requires whole { journal.old.held.broken ≡ false }
    requires fits { Fits journal.old.held (D.told disk.old) }
    requires rests { Rests (D.told disk.old) journal.old.held }
    requires empty { IfSome (D.told disk.old) (λ t. journal.old.held.payloads ≡ []) }
    requires payloads { AllByRecursion IsPayload texts.now }
    requires records { length texts.now ≤ journal.old.spare_records }
    requires bytes { sum_by length texts.now ≤ journal.old.spare_bytes }
    ensures appended { OnOk result ((journal.new.held.area ≡ Ledger) × (journal.new.held.broken ≡ false) × Fits journal.new.held (D.told disk.new) × Rests (D.told disk.new) journal.new.held × IfSome (D.told disk.new) (λ t. journal.new.held.payloads ≡ texts.now)) }
    ensures ok { OnOk result (Makes (stored_calls texts.now) (D.told disk.old) (D.told disk.new)) }
    ensures err { OnErr result (FailsAmong (stored_calls texts.now) (D.told disk.old) (D.told disk.new)) }
    ensures ledger { D.book disk.new ≡ D.book disk.old }
    ensures beside { D.beside disk.old disk.new }
    ensures cause { HasCause (D.faults disk.old) (D.faults disk.new) result }
{
    for index in 0..texts.length() {
        let Some(text) = texts.get(index) else {
            unreachable!();
        };
        match journal.append(disk, text.bytes()) {
            Ok(()) => {}
            Err(_) => return Err(DiskFault),
        }
    }
    Ok(())
}

/// Writes a new ledger. Memory for the ledger and its payloads is found before the first call on the disk, and the journal's room for them within its opening, before the first write.
pub(crate) fn set_up<C: LedgerCore, D: Disk>(
    alloc: Global,
    disk: &mut D,
    kind: LedgerKind,
    genesis: &Genesis,
) -> Result<(C, Journal), KeeperFault>
    ensures set { IfOk result (λ x. (C.book x.0 ≡ founded genesis.now) × (x.1.held.area ≡ Ledger) × (x.1.held.broken ≡ false) × Fits x.1.held (D.told disk.new) × Rests (D.told disk.new) x.1.held × IfSome (D.told disk.new) (λ t. x.1.held.payloads ≡ ledger_payloads kind genesis.now [])) }
    ensures leaves { IfOk result (λ x. IfSome (D.told disk.new) (λ t. Leaves kind x.1.held.payloads (C.book x.0))) }
    ensures answers { MatchResult result (λ x. Makes (found_calls (ledger_payloads kind genesis.now [])) (D.told disk.old) (D.told disk.new)) (λ fault. UnfoundedBy (ledger_payloads kind genesis.now []) (D.told disk.old) (D.told disk.new) fault) }
    ensures ledger { D.book disk.new ≡ D.book disk.old }
    ensures beside { D.beside disk.old disk.new }
    ensures later { D.faults disk.old ≤ D.faults disk.new }
    ensures cause { IfErr result (λ fault. fault ≡ KeeperFault.Disk → Rose (D.faults disk.old) (D.faults disk.new)) }
    ensures kept { OnOk result (D.faults disk.new ≡ D.faults disk.old) }
    ensures still { IfErr result (λ fault. fault ≢ KeeperFault.Disk → D.faults disk.new ≡ D.faults disk.old) }
{
    let core = match C::begin(alloc, genesis) {
        Ok(core) => core,
        Err(Memory) => return Err(KeeperFault::Memory),
    };
    let texts = match first_payloads(alloc, kind, genesis) {
        Ok(texts) => texts,
        Err(Memory) => return Err(KeeperFault::Memory),
    };
    let size = size_of(&texts);
    let mut journal = match open_empty(alloc, disk, texts.length(), size) {
        Ok(journal) => journal,
        Err(fault) => return Err(fault),
    };
    match append_all(disk, &mut journal, &texts) {
        Ok(()) => Ok((core, journal)),
        Err(DiskFault) => Err(KeeperFault::Disk),
    }
}
