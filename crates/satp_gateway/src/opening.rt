//! The opening of a gateway: its journal is read, and then its ledger is opened.

ghost use Rattle.std.specs.Prelude.{◌≡◌, ◌≢◌, ◌<◌, ◌≤◌, length, slice_get, IfErr, IfOk, OnOk};
ghost use Rattle.satp_base.specs.Streams.{Rose};
ghost use Rattle.satp_base.specs.declared.area.Area.TheVariants.{JournalA};
ghost use Rattle.satp_journal.specs.Opening.{OpenStops, Rests};
ghost use Rattle.satp_journal.specs.State.{Fits};
ghost use Rattle.satp_log.specs.Logged.{LogReads, ReadsFirst, fault_at};
ghost use Rattle.satp_gateway.specs.Opening.{OpensJournal, open_fault, read_fault};

use crate::fault::OpenFault;
use satp_base::{Area, Site};
use satp_journal::{Journal, JournalFault};
use satp_log::{Log, LogFault, Misfit};
use std::alloc::Global;

/// What it says of an opening that the journal wasn't opened.
pub(crate) fn not_opened(fault: JournalFault) -> OpenFault
    ensures { result ≡ open_fault fault }
{
    match fault {
        JournalFault::Damaged { at } => OpenFault::Damaged { at },
        JournalFault::Memory => OpenFault::Memory,
        JournalFault::Disk | JournalFault::Broken => OpenFault::Site,
    }
}

/// What it says of an opening that the payloads are no gateway's journal.
pub(crate) fn not_read(fault: LogFault) -> OpenFault
    ensures { result ≡ read_fault fault }
{
    match fault {
        LogFault::Empty => OpenFault::Empty,
        LogFault::Record { index } => OpenFault::Record { index },
        LogFault::Memory => OpenFault::Memory,
    }
}

/// The log of a journal's payloads, read in their order.
pub(crate) fn read(alloc: Global, journal: &Journal) -> Result<Log, LogFault>
    ensures { LogReads journal.now.held.payloads result }
{
    let mut log = first(alloc, journal)?;
    for index in 1..journal.count() {
        if let Err(misfit) = log.add(alloc, payload_at(journal, index)) {
            return Err(fault_at(misfit, index));
        }
    }
    Ok(log)
}

/// The log of the first payload.
fn first(alloc: Global, journal: &Journal) -> Result<Log, LogFault>
    ensures { ReadsFirst journal.now.held.payloads result }
{
    match journal.payload(0) {
        Some(payload) => match Log::begin(alloc, payload) {
            Ok(log) => Ok(log),
            Err(misfit) => Err(fault_at(misfit, 0)),
        },
        None => Err(LogFault::Empty),
    }
}

/// The payload at an index below their number.
fn payload_at(journal: &Journal, index: usize) -> &[u8]
    requires { index < length journal.now.held.payloads }
    ensures { slice_get journal.now.held.payloads index ≡ Some result.now }
{
    match journal.payload(index) {
        Some(payload) => payload,
        None => unreachable!(),
    }
}

/// The fault of a payload at an index that isn't added.
fn fault_at(misfit: Misfit, index: usize) -> LogFault
    ensures { result ≡ fault_at misfit index }
{
    match misfit {
        Misfit::Refused => LogFault::Record { index },
        Misfit::Memory => LogFault::Memory,
    }
}

/// Opens the journal of a site, and reads it. The ledger is left alone.
pub(crate) fn open_journal<S: Site>(
    alloc: Global,
    site: &mut S,
) -> Result<(Journal, Log), OpenFault>
    ensures opens { OpensJournal (S.told site.old) (S.told site.new) result }
    ensures stops { OpenStops JournalA (S.told site.old) (S.told site.new) }
    ensures rests { IfOk result (λ both. Rests (S.told site.new) both.0.held) }
    ensures fits { IfOk result (λ both. Fits both.0.held (S.told site.new)) }
    ensures ledger { S.book site.new ≡ S.book site.old }
    ensures beside { S.beside site.old site.new }
    ensures later { S.faults site.old ≤ S.faults site.new }
    ensures cause { IfErr result (λ fault. fault ≡ OpenFault.Site → Rose (S.faults site.old) (S.faults site.new)) }
    ensures kept { OnOk result (S.faults site.new ≡ S.faults site.old) }
    ensures still { IfErr result (λ fault. fault ≢ OpenFault.Site → S.faults site.new ≡ S.faults site.old) }
{
    let journal = match Journal::open(alloc, site, Area::JournalA) {
        Ok(journal) => journal,
        Err(fault) => return Err(not_opened(fault)),
    };
    match read(alloc, &journal) {
        Ok(log) => Ok((journal, log)),
        Err(fault) => Err(not_read(fault)),
    }
}
