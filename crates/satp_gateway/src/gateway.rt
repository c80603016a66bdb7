ghost use Rattle.std.specs.Prelude.{◌≡◌, ◌≢◌, ◌≤◌, false, length, ℕ, IfErr, IfOk, OnOk, List, Option, Ok, Result, IsTrue};
ghost use Rattle.satp_base.specs.Streams.{Rose};
ghost use Rattle.satp_base.specs.Tales.{is_whole};
ghost use Rattle.satp_base.specs.declared.area.Area.TheVariants.{JournalA};
ghost use Rattle.satp_base.specs.declared.session.SessionId.{SessionId as TheSession};
ghost use Rattle.satp_journal.specs.Opening.{OpenStops};
ghost use Rattle.satp_log.specs.Journals.{party_of};
ghost use Rattle.satp_points.specs.Answers.{Answers};
ghost use Rattle.satp_points.specs.States.{GateWithin, Holds, is_broken, tells};
ghost use Rattle.satp_points.specs.declared.fault.Refused.{Refused as RefusedBy};
ghost use Rattle.satp_records.specs.declared.stored.Setup.{Setup as TheSetup};
ghost use Rattle.satp_sides.specs.Calls.{Aborts, Rescues, Starts, Works, success_text};
ghost use Rattle.satp_sides.specs.Points.{Stored, chain_in, tale_of, view_in};
ghost use Rattle.satp_gateway.specs.Handling.{Forgets, text_said};
ghost use Rattle.satp_gateway.specs.Opening.{GatewayOpens, IsAtSome, OpenDecided};
ghost use Rattle.satp_gateway.specs.SettingUp.{FoundsOnce, RestsSetUp, SetUpAnswers, SetUpDecided, plan};
ghost use Rattle.satp_gateway.specs.SetUpStops.{SetUpStops};

use crate::fault::{OpenFault, SetUpFault};
use crate::opening::open_journal;
use crate::vacancy::Vacancy;
use satp_base::{Genesis, LedgerKind, Memory, SessionId, Site, Terms, Text, View};
use satp_decisions as decide;
use satp_engine::Register;
use satp_points::Refused;
use satp_records::Setup;
use std::alloc::Global;
use std::marker::Model;

/// One side of transfers, with a journal and a ledger at a site.
///
/// Each call makes the calls on its site that its records ask for, in their order, and no others. A call that fails on the site leaves the gateway broken: it answers
/// `Broken` from then on, and has to be opened again.
#[derive(Drop)]
pub struct Gateway {
    pub(crate) register: Register,
}

impl Model for Gateway {
    ghost use Rattle.std.specs.Prelude.{◌≡◌};
    ghost use Rattle.satp_points.specs.States.{GatewayState};

    ghost Value = { GatewayState };

    ghost view = { λ g. g.register };
}

impl Gateway {
    /// Sets a gateway up at a site: opens the journal, founds the ledger there, and stores what the gateway was set up with as the journal's one record.
    ///
    /// The key has 32 to 64 bytes, and the peer isn't the gateway itself.
    ///
    /// `Already` comes exactly where the journal has a record, and `Damaged` exactly where its bytes stand for no list; both leave the ledger alone.
    /// `Site` comes only where the site's count of faults rose, and every other answer leaves the count. `Memory` comes before the ledger is founded, and leaves it alone.
    /// Until the ledger is founded, what a stop or `Site` leaves of the journal is what an opening of it leaves. From then on the journal has no record or that one alone.
    pub fn set_up<S: Site>(
        alloc: Global,
        site: &mut S,
        setup: &Setup,
        kind: LedgerKind,
        genesis: &Genesis,
    ) -> Result<(), SetUpFault>
        requires key_least { 32 ≤ length setup.now.key }
        requires key_most { length setup.now.key ≤ 64 }
        requires peer { setup.now.name ≢ setup.now.peer }
        ensures answers { SetUpAnswers (plan setup.now kind genesis.now) (tells (S.told site.old) (S.book site.old)) (tells (S.told site.new) (S.book site.new)) result }
        ensures decided { SetUpDecided (S.told site.old) result }
        ensures rests { OnOk result (RestsSetUp (plan setup.now kind genesis.now) (S.told site.new)) }
        ensures once { FoundsOnce (plan setup.now kind genesis.now) (S.told site.old) (S.told site.new) }
        ensures stops { SetUpStops (plan setup.now kind genesis.now) (S.told site.old) (S.told site.new) }
        ensures beside { S.beside site.old site.new }
        ensures later { S.faults site.old ≤ S.faults site.new }
        ensures cause { IfErr result (λ fault. fault ≡ SetUpFault.Site → Rose (S.faults site.old) (S.faults site.new)) }
        ensures kept { OnOk result (S.faults site.new ≡ S.faults site.old) }
        ensures still { IfErr result (λ fault. fault ≢ SetUpFault.Site → S.faults site.new ≡ S.faults site.old) }
    {
        let vacancy = Vacancy::open(alloc, site)?;
        vacancy.set_up(alloc, site, setup, kind, genesis)
    }

    /// Opens the gateway of a site: reads its journal, and then opens its ledger. It does no due work.
    ///
    /// `Empty` comes exactly where the journal has no record, `Record` exactly where it has one that may not stand there, with the index of the first, and `Damaged`
    /// exactly where its bytes stand for no list. These leave the ledger uncalled. `Site` comes only where the site's count of faults rose, and every other answer leaves the count.
    pub fn open<S: Site>(alloc: Global, site: &mut S) -> Result<Gateway, OpenFault>
        ensures answers { GatewayOpens (tells (S.told site.old) (S.book site.old)) (tells (S.told site.new) (S.book site.new)) result }
        ensures decided { OpenDecided (S.told site.old) result }
        ensures stops { OpenStops JournalA (S.told site.old) (S.told site.new) }
        ensures at { IfOk result (λ g. IsAtSome g (tells (S.told site.new) (S.book site.new))) }
        ensures whole { IfOk result (λ g. is_broken g ≡ false) }
        ensures within { IfOk result (λ g. GateWithin g (S.told site.new)) }
        ensures ledger { S.book site.new ≡ S.book site.old }
        ensures beside { S.beside site.old site.new }
        ensures later { S.faults site.old ≤ S.faults site.new }
        ensures cause { IfErr result (λ fault. fault ≡ OpenFault.Site → Rose (S.faults site.old) (S.faults site.new)) }
        ensures kept { OnOk result (S.faults site.new ≡ S.faults site.old) }
        ensures still { IfErr result (λ fault. fault ≢ OpenFault.Site → S.faults site.new ≡ S.faults site.old) }
    {
        let (journal, log) = open_journal(alloc, site)?;
        match site.raise() {
            Ok(()) => Ok(Gateway {
                register: Register::of(journal, log),
            }),
            Err(_) => Err(OpenFault::Site),
        }
    }

    /// Whether a call on the site has failed. The gateway answers `Broken` then, and has to be opened again.
    pub fn is_broken(&self) -> bool
        ensures { result ≡ is_broken self.now }
    {
        self.register.is_broken()
    }

    /// What the gateway was set up with.
    pub fn setup(&self) -> &Setup
        ensures { (setup : TheSetup) (xs : List Stored) → Holds self.now setup xs → result.now ≡ setup }
    {
        self.register.log().setup()
    }

    /// Starts a session of this gateway's own name, and answers the text of its proposal.
    ///
    /// The number is at least 1. In this order: `Broken`, `Exists` where a record names the session, `Full` where 2,048 sessions were started here, `Memory`, and `Site` in the writing.
    /// Each but `Site` leaves all as it was.
    pub fn start<S: Site>(
        &mut self,
        alloc: Global,
        site: &mut S,
        number: u32,
        terms: &Terms,
    ) -> Result<Text, Refused>
        requires number { 1 ≤ number }
        requires within { is_broken self.old ≡ false → GateWithin self.old (S.told site.old) }
        ensures answers { (s : TheSession) → s.number ≡ number → ((setup : TheSetup) (xs : List Stored) → Holds self.old setup xs → s.gateway ≡ setup.name)
            → Answers (Starts s terms.now) self.old self.new (tells (S.told site.old) (S.book site.old)) (tells (S.told site.new) (S.book site.new)) (text_said result) }
        ensures within { is_broken self.new ≡ false → GateWithin self.new (S.told site.new) }
        ensures beside { S.beside site.old site.new }
        ensures later { S.faults site.old ≤ S.faults site.new }
        ensures cause { IfErr result (λ fault. fault ≡ Refused.Site → Rose (S.faults site.old) (S.faults site.new)) }
        ensures kept { OnOk result (S.faults site.new ≡ S.faults site.old) }
        ensures still { IfErr result (λ fault. fault ≢ Refused.Site → S.faults site.new ≡ S.faults site.old) }
    {
        if self.register.is_broken() {
            return Err(Refused::Broken);
        }
        let decision = decide::start(self.register.log(), number, terms)?;
        match self.register.carry_out(alloc, site, decision)? {
            Some(text) => Ok(text),
            None => unreachable!(),
        }
    }

    /// Does the due work of a session, and answers the chain's last text, which is this side's; none exactly where the chain is whole.
    ///
    /// In this order: `Broken`, `Strange` where no record names the session, `Memory`, and `Site` in the work. Each but `Site` leaves all as it was.
    pub fn work<S: Site>(
        &mut self,
        alloc: Global,
        site: &mut S,
        session: SessionId,
    ) -> Result<Option<Text>, Refused>
        requires within { is_broken self.old ≡ false → GateWithin self.old (S.told site.old) }
        ensures answers { Answers (Works session) self.old self.new (tells (S.told site.old) (S.book site.old)) (tells (S.told site.new) (S.book site.new)) result }
        ensures within { is_broken self.new ≡ false → GateWithin self.new (S.told site.new) }
        ensures beside { S.beside site.old site.new }
        ensures later { S.faults site.old ≤ S.faults site.new }
        ensures cause { IfErr result (λ fault. fault ≡ Refused.Site → Rose (S.faults site.old) (S.faults site.new)) }
        ensures kept { OnOk result (S.faults site.new ≡ S.faults site.old) }
        ensures still { IfErr result (λ fault. fault ≢ Refused.Site → S.faults site.new ≡ S.faults site.old) }
    {
        if self.register.is_broken() {
            return Err(Refused::Broken);
        }
        let decision = decide::work(self.register.log(), session)?;
        self.register.carry_out(alloc, site, decision)
    }

    /// Turns a session back, as its operator wishes, and does its due work. A session that is on its way back already stays so.
    ///
    /// In this order: `Broken`, `Strange` where no record names the session, `TooLate` with the place of the message that decides the session, `Memory`, and `Site` in the work.
    /// Each but `Site` leaves all as it was.
    pub fn abort<S: Site>(
        &mut self,
        alloc: Global,
        site: &mut S,
        session: SessionId,
    ) -> Result<(), Refused>
        requires within { is_broken self.old ≡ false → GateWithin self.old (S.told site.old) }
        ensures answers { (outcome : Result (Option (List ℕ)) RefusedBy) × Forgets outcome result × Answers (Aborts session) self.old self.new (tells (S.told site.old) (S.book site.old)) (tells (S.told site.new) (S.book site.new)) outcome }
        ensures within { is_broken self.new ≡ false → GateWithin self.new (S.told site.new) }
        ensures beside { S.beside site.old site.new }
        ensures later { S.faults site.old ≤ S.faults site.new }
        ensures cause { IfErr result (λ fault. fault ≡ Refused.Site → Rose (S.faults site.old) (S.faults site.new)) }
        ensures kept { OnOk result (S.faults site.new ≡ S.faults site.old) }
        ensures still { IfErr result (λ fault. fault ≢ Refused.Site → S.faults site.new ≡ S.faults site.old) }
    {
        if self.register.is_broken() {
            return Err(Refused::Broken);
        }
        let decision = decide::abort(self.register.log(), session)?;
        let text = self.register.carry_out(alloc, site, decision)?;
        drop(text);
        Ok(())
    }

    /// Begins a recovery round of a session: stores that it did where it may still turn back for that, does the due work, and answers the text of `recover`.
    ///
    /// In this order: `Broken`, `Strange` where no record names the session, `Memory`, and `Site` in the work. Each but `Site` leaves all as it was, but that no memory
    /// may be found for the text itself: then the work stands.
    pub fn rescue<S: Site>(
        &mut self,
        alloc: Global,
        site: &mut S,
        session: SessionId,
    ) -> Result<Text, Refused>
        requires within { is_broken self.old ≡ false → GateWithin self.old (S.told site.old) }
        ensures answers { Answers (Rescues session) self.old self.new (tells (S.told site.old) (S.book site.old)) (tells (S.told site.new) (S.book site.new)) (text_said result) }
        ensures within { is_broken self.new ≡ false → GateWithin self.new (S.told site.new) }
        ensures beside { S.beside site.old site.new }
        ensures later { S.faults site.old ≤ S.faults site.new }
        ensures cause { IfErr result (λ fault. fault ≡ Refused.Site → Rose (S.faults site.old) (S.faults site.new)) }
        ensures kept { OnOk result (S.faults site.new ≡ S.faults site.old) }
        ensures still { IfErr result (λ fault. fault ≢ Refused.Site → S.faults site.new ≡ S.faults site.old) }
    {
        if self.register.is_broken() {
            return Err(Refused::Broken);
        }
        let decision = decide::rescue(self.register.log(), session)?;
        match self.register.carry_out(alloc, site, decision)? {
            Some(text) => Ok(text),
            None => unreachable!(),
        }
    }

    /// The text of `recover-success` of a session whose chain is whole.
    pub fn closing(&self, alloc: Global, session: SessionId) -> Result<Text, Memory>
        requires whole { (setup : TheSetup) (xs : List Stored) → Holds self.now setup xs → IsTrue (is_whole (tale_of (view_in session xs))) }
        ensures { (setup : TheSetup) (xs : List Stored) → Holds self.now setup xs → IfOk result (λ text. text ≡ success_text (party_of setup) session (chain_in session xs)) }
    {
        self.register.closing(alloc, session)
    }

    /// What the records say of a session; none exactly where no record names it.
    pub fn show(&self, session: SessionId) -> Option<View>
        ensures { (setup : TheSetup) (xs : List Stored) → Holds self.now setup xs → result ≡ view_in session xs }
    {
        self.register.log().view(session)
    }
}
