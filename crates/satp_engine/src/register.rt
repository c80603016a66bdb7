ghost use Rattle.std.specs.Prelude.{◌≡◌, ◌≢◌, ◌≤◌, false, IfErr, IfOk, IsTrue, List, OnOk};
ghost use Rattle.satp_base.specs.Streams.{Rose};
ghost use Rattle.satp_base.specs.Tales.{is_whole};
ghost use Rattle.satp_log.specs.Journals.{IsJournal, party_of};
ghost use Rattle.satp_log.specs.Logged.{LogHolds};
ghost use Rattle.satp_records.specs.declared.stored.Setup.{Setup};
ghost use Rattle.satp_sides.specs.Calls.{success_text};
ghost use Rattle.satp_sides.specs.Logs.{IsLog};
ghost use Rattle.satp_sides.specs.Points.{Stored, chain_in, tale_of, view_in};
ghost use Rattle.satp_points.specs.Deciding.{Done};
ghost use Rattle.satp_points.specs.Decisions.{IsReady};
ghost use Rattle.satp_points.specs.States.{GateWithin, Holds, is_broken, tells};
ghost use Rattle.satp_points.specs.declared.decision.Decision.TheVariants.{Works};
ghost use Rattle.satp_engine.specs.Carrying.{is_site_fault};

use crate::records::Records;
use satp_base::{Memory, SessionId, Site, Text};
use satp_journal::Journal;
use satp_log::Log;
use satp_messages::success;
use satp_points::{Decision, First, Refused, Replying};
use std::alloc::Global;
use std::marker::Model;

/// The records of a gateway at a site, and whether a call on the site has failed.
#[derive(Drop)]
pub struct Register {
    records: Records,
    broken: bool,
}

impl Model for Register {
    ghost use Rattle.std.specs.Prelude.{◌≡◌, false};
    ghost use Rattle.satp_journal.specs.State.{Held};

    ghost Value = { Held };

    ghost use Rattle.satp_engine.specs.Working.{KeepsSome};

    ghost view = { λ r. record { area = r.records.journal.held.area; payloads = r.records.journal.held.payloads; broken = r.broken } };

    ghost invariant = { λ r. KeepsSome r.records × (r.broken ≡ false → r.records.journal.held.broken ≡ false) };
}

impl Register {
    /// The register of a journal that was opened, with the log of its payloads.
    pub fn of(journal: Journal, log: Log) -> Register
        requires kept { (setup : Setup) × (xs : List Stored) × IsJournal journal.held.payloads setup xs × LogHolds log setup xs }
        requires whole { journal.held.broken ≡ false }
        ensures { result ≡ journal.held }
    {
        Register {
            records: Records { journal, log },
            broken: false,
        }
    }

    /// What the records say.
    pub fn log(&self) -> &Log
        ensures holds { (setup : Setup) (xs : List Stored) → Holds self.now setup xs → LogHolds result.now setup xs × IsLog (party_of setup) xs }
        ensures some { (setup : Setup) × (xs : List Stored) × Holds self.now setup xs }
    {
        &self.records.log
    }

    /// Whether a call on the site has failed. The gateway has to be opened again then.
    pub fn is_broken(&self) -> bool
        ensures { result ≡ is_broken self.now }
    {
        self.broken
    }

    /// The text of `recover-success` of a session whose chain is whole.
    pub fn closing(&self, alloc: Global, session: SessionId) -> Result<Text, Memory>
        requires whole { (setup : Setup) (xs : List Stored) → Holds self.now setup xs → IsTrue (is_whole (tale_of (view_in session xs))) }
        ensures { (setup : Setup) (xs : List Stored) → Holds self.now setup xs → IfOk result (λ text. text ≡ success_text (party_of setup) session (chain_in session xs)) }
    {
        let state = self.records.state(session);
        success(alloc, &self.records.log, session, state.chain())
    }

    /// Carries a decision out at the site: gives its reply at once; or stores its first record, if there is one, does the
    /// due work of its session, and gives the reply.
    ///
    /// `Site` comes where a call on the site failed, and leaves the register broken. `Memory` comes before the first call on
    /// the site, and leaves all as it was; or, where the reply is a message that is written after the due work, it may come
    /// for that message, and then the work stands. No other refusal comes.
    pub fn carry_out<S: Site>(
        &mut self,
        alloc: Global,
        site: &mut S,
        decision: Decision,
    ) -> Result<Option<Text>, Refused>
        requires whole { is_broken self.old ≡ false }
        requires within { GateWithin self.old (S.told site.old) }
        requires ready { (setup : Setup) (xs : List Stored) → Holds self.old setup xs → IsReady (party_of setup) xs decision }
        ensures done { Done decision self.old self.new (tells (S.told site.old) (S.book site.old)) (tells (S.told site.new) (S.book site.new)) result }
        ensures within { is_broken self.new ≡ false → GateWithin self.new (S.told site.new) }
        ensures beside { S.beside site.old site.new }
        ensures later { S.faults site.old ≤ S.faults site.new }
        ensures cause { IfErr result (λ fault. fault ≡ Refused.Site → Rose (S.faults site.old) (S.faults site.new)) }
        ensures kept { OnOk result (S.faults site.new ≡ S.faults site.old) }
        ensures still { IfErr result (λ fault. fault ≢ Refused.Site → S.faults site.new ≡ S.faults site.old) }
    {
        match decision {
            Decision::Gives { reply } => Ok(reply),
            Decision::Works {
                session,
                first,
                replying,
            } => self.work(alloc, site, session, first, replying),
        }
    }

    /// Carries out a decision to work on a session.
    fn work<S: Site>(
        &mut self,
        alloc: Global,
        site: &mut S,
        session: SessionId,
        first: First,
        replying: Replying,
    ) -> Result<Option<Text>, Refused>
        requires whole { is_broken self.old ≡ false }
        requires within { GateWithin self.old (S.told site.old) }
        requires ready { (setup : Setup) (xs : List Stored) → Holds self.old setup xs → IsReady (party_of setup) xs (Works session first replying) }
        ensures done { Done (Works session first replying) self.old self.new (tells (S.told site.old) (S.book site.old)) (tells (S.told site.new) (S.book site.new)) result }
        ensures within { is_broken self.new ≡ false → GateWithin self.new (S.told site.new) }
        ensures beside { S.beside site.old site.new }
        ensures later { S.faults site.old ≤ S.faults site.new }
        ensures cause { IfErr result (λ fault. fault ≡ Refused.Site → Rose (S.faults site.old) (S.faults site.new)) }
        ensures kept { OnOk result (S.faults site.new ≡ S.faults site.old) }
        ensures still { IfErr result (λ fault. fault ≢ Refused.Site → S.faults site.new ≡ S.faults site.old) }
    {
        let result = self
            .records
            .carry_out(alloc, site, session, first, replying);
        self.broken = is_site_fault(&result);
        result
    }
}

/// Whether a call on the site failed.
fn is_site_fault(answer: &Result<Option<Text>, Refused>) -> bool
    ensures { result ≡ is_site_fault answer.now }
{
    match answer {
        Err(Refused::Site) => true,
        _ => false,
    }
}
