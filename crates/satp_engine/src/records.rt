ghost use Rattle.std.specs.Prelude.{◌≡◌, [], ◌∷◌, OnOk, OnErr};
ghost use Rattle.satp_base.specs.Streams.{HasCause};
ghost use Rattle.satp_base.specs.declared.record.Rec.TheVariants.{Began};
ghost use Rattle.satp_log.specs.Folding.{State, proposal_text, state_with, text_with};
ghost use Rattle.satp_log.specs.Journals.{party_of, payload_in};
ghost use Rattle.satp_log.specs.Logged.{IsComing};
ghost use Rattle.satp_sides.specs.Points.{Appends, stored};
ghost use Rattle.satp_points.specs.States.{tells};
ghost use Rattle.satp_engine.specs.Starting.{IsBeginning};
ghost use Rattle.satp_engine.specs.Working.{Fails, Grows, HasRoom, HasState, Makes, Stands, TakesRoom};

use satp_base::{Rec, Role, SessionId, Site, SiteFault, Terms, Text};
use satp_chain::Signed;
use satp_journal::Journal;
use satp_log::{Log, SessionState};

/// The records of a gateway: in its journal, and in the log that is their index by session.
#[derive(Drop)]
pub struct Records {
    pub journal: Journal,
    pub log: Log,
}

impl Records {
    /// Stores one record more of a session that the log has, with the record's message where it has one. The journal
    /// has the room for it.
    ///
    /// A fault is that of a call on the site.
    pub fn store<S: Site>(
        &mut self,
        site: &mut S,
        session: SessionId,
        rec: Rec,
        message: Option<Signed>,
        payload: &Text,
    ) -> Result<(), SiteFault>
        requires stands { Stands self.old (S.told site.old) }
        requires room { HasRoom 1 self.old.journal }
        requires coming { IsComing self.old.log session rec message }
        requires payload { payload.now ≡ payload_in (stored session rec (text_with message)) }
        ensures makes { OnOk result (Makes (Appends (stored session rec (text_with message)) ∷ []) self.old.journal.held (tells (S.told site.old) (S.book site.old)) self.new.journal.held (tells (S.told site.new) (S.book site.new))) }
        ensures fails { OnErr result (Fails (Appends (stored session rec (text_with message)) ∷ []) self.old.journal.held (tells (S.told site.old) (S.book site.old)) (tells (S.told site.new) (S.book site.new))) }
        ensures stands { OnOk result (Stands self.new (S.told site.new)) }
        ensures room { OnOk result (TakesRoom self.old.journal self.new.journal) }
        ensures state { OnOk result ((state : State) → HasState self.old.log session state → HasState self.new.log session (state_with state rec message)) }
        ensures setup { self.new.log.setup ≡ self.old.log.setup }
        ensures grows { Grows session self.old self.new }
        ensures beside { S.beside site.old site.new }
        ensures cause { HasCause (S.faults site.old) (S.faults site.new) result }
    {
        match self.journal.append(site, payload.bytes()) {
            Ok(()) => {
                self.log.push(session, rec, message);
                Ok(())
            }
            Err(_) => Err(SiteFault),
        }
    }

    /// Stores the first record of a session, which begins it in this role with these terms; `state` is the session after
    /// it. The journal and the log have the room for it.
    ///
    /// A fault is that of a call on the site.
    pub fn store_session<S: Site>(
        &mut self,
        site: &mut S,
        session: SessionId,
        role: Role,
        terms: Terms,
        state: SessionState,
        payload: &Text,
    ) -> Result<(), SiteFault>
        requires stands { Stands self.old (S.told site.old) }
        requires room { HasRoom 1 self.old.journal }
        requires begins { IsBeginning self.old.log session role terms state payload.now }
        ensures makes { OnOk result (Makes (Appends (stored session (Began role terms) (proposal_text (party_of self.old.log.setup) session role terms)) ∷ []) self.old.journal.held (tells (S.told site.old) (S.book site.old)) self.new.journal.held (tells (S.told site.new) (S.book site.new))) }
        ensures fails { OnErr result (Fails (Appends (stored session (Began role terms) (proposal_text (party_of self.old.log.setup) session role terms)) ∷ []) self.old.journal.held (tells (S.told site.old) (S.book site.old)) (tells (S.told site.new) (S.book site.new))) }
        ensures stands { OnOk result (Stands self.new (S.told site.new)) }
        ensures room { OnOk result (TakesRoom self.old.journal self.new.journal) }
        ensures state { OnOk result (HasState self.new.log session state) }
        ensures setup { self.new.log.setup ≡ self.old.log.setup }
        ensures grows { Grows session self.old self.new }
        ensures beside { S.beside site.old site.new }
        ensures cause { HasCause (S.faults site.old) (S.faults site.new) result }
    {
        match self.journal.append(site, payload.bytes()) {
            Ok(()) => {
                self.log.push_session(session, role, terms, state);
                Ok(())
            }
            Err(_) => Err(SiteFault),
        }
    }
}
