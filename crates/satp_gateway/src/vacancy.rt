ghost use Rattle.std.specs.Prelude.{◌≡◌, ◌≢◌, ◌≤◌, [], length, IfErr, OnOk};
ghost use Rattle.satp_base.specs.Streams.{Rose};
ghost use Rattle.satp_journal.specs.Opening.{OpenStops, Rests};
ghost use Rattle.satp_journal.specs.State.{Fits};
ghost use Rattle.satp_points.specs.States.{tells};
ghost use Rattle.satp_gateway.specs.SettingUp.{VacancyAnswers, VacantAnswers, plan, vacant};
ghost use Rattle.satp_gateway.specs.SetUpStops.{VacantRests, VacantStops};
ghost use Rattle.satp_gateway.specs.declared.fault.SetUpFault.{SetUpFault};
ghost use Rattle.satp_base.specs.declared.area.Area.TheVariants.{JournalA};

use crate::fault::SetUpFault;
use crate::payload::setup_payload;
use crate::set_up::{establish, not_opened};
use satp_base::{Area, Genesis, LedgerKind, Site};
use satp_journal::Journal;
use satp_records::Setup;
use std::alloc::Global;
use std::marker::Model;

/// The open journal of a site without a gateway.
#[derive(Drop)]
pub struct Vacancy {
    journal: Journal,
}

impl Model for Vacancy {
    ghost use Rattle.std.specs.Prelude.{◌≡◌};
    ghost use Rattle.satp_journal.specs.State.{Held};
    ghost use Rattle.satp_gateway.specs.SettingUp.{vacant};

    ghost Value = { Held };

    ghost view = { λ v. v.journal.held };

    ghost invariant = { λ v. v.journal.held ≡ vacant };
}

impl Vacancy {
    /// Opens the journal of a site, which must have no record. The ledger is left alone.
    ///
    /// `Already` comes exactly where the journal has a record, and `Damaged` exactly where its bytes stand for no list.
    /// `Site` comes only where the site's count of faults rose, and every other answer leaves the count.
    pub fn open<S: Site>(alloc: Global, site: &mut S) -> Result<Vacancy, SetUpFault>
        ensures answers { VacancyAnswers (tells (S.told site.old) (S.book site.old)) (tells (S.told site.new) (S.book site.new)) result }
        ensures stops { OpenStops JournalA (S.told site.old) (S.told site.new) }
        ensures rests { OnOk result (Rests (S.told site.new) vacant) }
        ensures fits { OnOk result (Fits vacant (S.told site.new)) }
        ensures beside { S.beside site.old site.new }
        ensures later { S.faults site.old ≤ S.faults site.new }
        ensures cause { IfErr result (λ fault. fault ≡ SetUpFault.Site → Rose (S.faults site.old) (S.faults site.new)) }
        ensures kept { OnOk result (S.faults site.new ≡ S.faults site.old) }
        ensures still { IfErr result (λ fault. fault ≢ SetUpFault.Site → S.faults site.new ≡ S.faults site.old) }
    {
        match Journal::open(alloc, site, Area::JournalA) {
            Ok(journal) if journal.count() == 0 => Ok(Vacancy { journal }),
            Ok(_) => Err(SetUpFault::Already),
            Err(fault) => Err(not_opened(fault)),
        }
    }

    /// Sets a gateway up where the journal was opened: founds the ledger, and then stores what the gateway was set up with as the journal's one record.
    ///
    /// The key has 32 to 64 bytes, and the peer isn't the gateway itself. The journal has to fit the site, as it does where nothing cut its area since it was opened.
    ///
    /// `Site` comes only where the site's count of faults rose, and every other answer leaves the count.
    /// `Memory` comes before the first call on the site. No other error comes.
    pub fn set_up<S: Site>(
        self,
        alloc: Global,
        site: &mut S,
        setup: &Setup,
        kind: LedgerKind,
        genesis: &Genesis,
    ) -> Result<(), SetUpFault>
        requires key_least { 32 ≤ length setup.now.key }
        requires key_most { length setup.now.key ≤ 64 }
        requires peer { setup.now.name ≢ setup.now.peer }
        requires fits { Fits vacant (S.told site.old) }
        ensures answers { VacantAnswers (plan setup.now kind genesis.now) (tells (S.told site.old) (S.book site.old)) (tells (S.told site.new) (S.book site.new)) result }
        ensures stops { VacantStops (plan setup.now kind genesis.now) (S.told site.old) (S.told site.new) }
        ensures rests { OnOk result (VacantRests (plan setup.now kind genesis.now) (S.told site.old) (S.told site.new)) }
        ensures beside { S.beside site.old site.new }
        ensures later { S.faults site.old ≤ S.faults site.new }
        ensures cause { IfErr result (λ fault. fault ≡ SetUpFault.Site → Rose (S.faults site.old) (S.faults site.new)) }
        ensures kept { OnOk result (S.faults site.new ≡ S.faults site.old) }
        ensures still { IfErr result (λ fault. fault ≢ SetUpFault.Site → S.faults site.new ≡ S.faults site.old) }
    {
        let Vacancy { mut journal } = self;
        let payload = setup_payload(alloc, setup)?;
        journal.reserve(1, payload.bytes().len())?;
        establish(site, &mut journal, payload.bytes(), kind, genesis)?;
        Ok(())
    }
}
