//! The steps of a set-up.

ghost use Rattle.std.specs.Prelude.{◌≡◌, ◌≤◌, length, OnOk, OnErr};
ghost use Rattle.satp_base.specs.Calls.{FailsAmong, Makes, calls_of};
ghost use Rattle.satp_base.specs.Format.{IsPayload};
ghost use Rattle.satp_base.specs.Segments.{append_events};
ghost use Rattle.satp_base.specs.Streams.{HasCause};
ghost use Rattle.satp_base.specs.declared.area.Area.TheVariants.{JournalA};
ghost use Rattle.satp_journal.specs.State.{Fits};
ghost use Rattle.satp_points.specs.States.{tells};
ghost use Rattle.satp_gateway.specs.SettingUp.{Establishes, FailsToEstablish, plan_of, vacant};
ghost use Rattle.satp_gateway.specs.Steps.{set_up_fault};

use crate::fault::SetUpFault;
use satp_base::{Genesis, LedgerKind, Site, SiteFault};
use satp_journal::{Journal, JournalFault};

/// What it says of a set-up that the journal wasn't opened.
pub(crate) fn not_opened(fault: JournalFault) -> SetUpFault
    ensures { result ≡ set_up_fault fault }
{
    match fault {
        JournalFault::Damaged { at } => SetUpFault::Damaged { at },
        JournalFault::Memory => SetUpFault::Memory,
        JournalFault::Disk | JournalFault::Broken => SetUpFault::Site,
    }
}

/// Adds the payload to a journal that has the room for it.
fn store<S: Site>(site: &mut S, journal: &mut Journal, payload: &[u8]) -> Result<(), SiteFault>
    requires vacant { journal.old.held ≡ vacant }
    requires fits { Fits journal.old.held (S.told site.old) }
    requires records { 1 ≤ journal.old.spare_records }
    requires bytes { length payload.now ≤ journal.old.spare_bytes }
    requires payload { IsPayload payload.now }
    ensures ok { OnOk result (Makes (calls_of (append_events JournalA 0 payload.now)) (S.told site.old) (S.told site.new)) }
    ensures err { OnErr result (FailsAmong (calls_of (append_events JournalA 0 payload.now)) (S.told site.old) (S.told site.new)) }
    ensures ledger { S.book site.new ≡ S.book site.old }
    ensures beside { S.beside site.old site.new }
    ensures cause { HasCause (S.faults site.old) (S.faults site.new) result }
{
    match journal.append(site, payload) {
        Ok(()) => Ok(()),
        Err(JournalFault::Disk) => Err(SiteFault),
        Err(_) => unreachable!(),
    }
}

/// Founds the ledger, and then stores the payload.
pub(crate) fn establish<S: Site>(
    site: &mut S,
    journal: &mut Journal,
    payload: &[u8],
    kind: LedgerKind,
    genesis: &Genesis,
) -> Result<(), SiteFault>
    requires vacant { journal.old.held ≡ vacant }
    requires fits { Fits journal.old.held (S.told site.old) }
    requires records { 1 ≤ journal.old.spare_records }
    requires bytes { length payload.now ≤ journal.old.spare_bytes }
    requires payload { IsPayload payload.now }
    ensures ok { OnOk result (Establishes (plan_of payload.now kind genesis.now) (S.told site.old) (tells (S.told site.new) (S.book site.new))) }
    ensures err { OnErr result (FailsToEstablish (plan_of payload.now kind genesis.now) (S.told site.old) (tells (S.told site.new) (S.book site.new))) }
    ensures beside { S.beside site.old site.new }
    ensures cause { HasCause (S.faults site.old) (S.faults site.new) result }
{
    site.found(kind, genesis)?;
    store(site, journal, payload)
}
