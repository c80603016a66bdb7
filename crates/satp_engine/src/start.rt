ghost use Rattle.std.specs.Prelude.{◌≡◌, [], IfOk, List, Some, None, OnOk, OnErr, map};
ghost use Rattle.satp_base.specs.Streams.{HasCause};
ghost use Rattle.satp_base.specs.Canonical.{kind_of};
ghost use Rattle.satp_log.specs.Folding.{IsProposed, State, proposal_text};
ghost use Rattle.satp_log.specs.Journals.{party_of, payload_in};
ghost use Rattle.satp_log.specs.Logged.{with_spare};
ghost use Rattle.satp_records.specs.Formats.{IsFormedRec};
ghost use Rattle.satp_records.specs.declared.stored.Setup.{Setup};
ghost use Rattle.satp_sides.specs.Points.{Appends, Stored as StoredOf, stored};
ghost use Rattle.satp_points.specs.Decisions.{FirstMayCome};
ghost use Rattle.satp_points.specs.States.{tells};
ghost use Rattle.satp_engine.specs.Starting.{IsNew, IsRecordStart, IsSessionStart, StartFits, Starts, start_records};
ghost use Rattle.satp_engine.specs.Working.{Fails, Grows, HasRoom, HasState, Keeps, KeepsSome, Makes, Stands, TakesRoom};

use crate::records::Records;
use satp_base::{Memory, Rec, Role, SessionId, Site, SiteFault, Terms, Text};
use satp_chain::Signed;
use satp_log::SessionState;
use satp_points::First;
use satp_records::{Stored, encode};
use std::alloc::Global;

/// What a call stores before the due work of its session, with all that storing it takes.
#[derive(Drop)]
pub enum Start {
    /// Nothing.
    Nothing,
    /// A record of a session that the log has, with its message where it has one.
    Record {
        rec: Rec,
        message: Option<Signed>,
        payload: Text,
    },
    /// The first record of a session, and the session after it.
    Session {
        role: Role,
        terms: Terms,
        state: SessionState,
        payload: Text,
    },
}

impl Records {
    /// Makes what a call stores first, and finds the log's room for a session that begins.
    pub fn start(
        &mut self,
        alloc: Global,
        session: SessionId,
        first: First,
    ) -> Result<Start, Memory>
        requires kept { KeepsSome self.old }
        requires may { (setup : Setup) (xs : List StoredOf) → Keeps self.old setup xs → FirstMayCome (party_of setup) session xs first }
        ensures starts { IfOk result (Starts self.new.log session first) }
        ensures journal { self.new.journal ≡ self.old.journal }
        ensures log { self.new.log ≡ with_spare self.old.log self.new.log.spare }
    {
        match first {
            First::Nothing => Ok(Start::Nothing),
            First::Note { rec } => start_note(alloc, session, rec),
            First::Takes { signed } => start_taken(alloc, session, signed),
            First::Begins { role, terms } => self.start_session(alloc, session, role, terms),
        }
    }

    /// Stores what a call stores first. A fault is that of a call on the site.
    pub fn store_start<S: Site>(
        &mut self,
        site: &mut S,
        session: SessionId,
        start: Start,
    ) -> Result<(), SiteFault>
        requires stands { Stands self.old (S.told site.old) }
        requires room { HasRoom 1 self.old.journal }
        requires fits { (after : State) × StartFits self.old.log session start after }
        ensures makes { OnOk result (Makes (map Appends (start_records (party_of self.old.log.setup) session start)) self.old.journal.held (tells (S.told site.old) (S.book site.old)) self.new.journal.held (tells (S.told site.new) (S.book site.new))) }
        ensures fails { OnErr result (Fails (map Appends (start_records (party_of self.old.log.setup) session start)) self.old.journal.held (tells (S.told site.old) (S.book site.old)) (tells (S.told site.new) (S.book site.new))) }
        ensures stands { OnOk result (Stands self.new (S.told site.new)) }
        ensures room { OnOk result (TakesRoom self.old.journal self.new.journal) }
        ensures state { OnOk result ((after : State) → StartFits self.old.log session start after → HasState self.new.log session after) }
        ensures setup { self.new.log.setup ≡ self.old.log.setup }
        ensures grows { Grows session self.old self.new }
        ensures beside { S.beside site.old site.new }
        ensures cause { HasCause (S.faults site.old) (S.faults site.new) result }
    {
        match start {
            Start::Nothing => Ok(()),
            Start::Record {
                rec,
                message,
                payload,
            } => self.store(site, session, rec, message, &payload),
            Start::Session {
                role,
                terms,
                state,
                payload,
            } => self.store_session(site, session, role, terms, state, &payload),
        }
    }

    /// Makes the first record of a session, and finds the log's room for it.
    fn start_session(
        &mut self,
        alloc: Global,
        session: SessionId,
        role: Role,
        terms: Terms,
    ) -> Result<Start, Memory>
        requires new { IsNew self.old.log session role }
        requires formed { IsFormedRec (Rec.Began role terms) (proposal_text (party_of self.old.log.setup) session role terms) }
        ensures starts { IfOk result (IsSessionStart self.new.log session role terms) }
        ensures journal { self.new.journal ≡ self.old.journal }
        ensures log { self.new.log ≡ with_spare self.old.log self.new.log.spare }
    {
        let state = self.propose(alloc, session, role, terms)?;
        let rec = Rec::Began(role, terms);
        let payload = match state.chain().entry(1) {
            Some(proposal) => payload(alloc, session, rec, proposal.text.bytes())?,
            None => unreachable!(),
        };
        self.log.reserve()?;
        Ok(Start::Session {
            role,
            terms,
            state,
            payload,
        })
    }

    /// The state of a session whose first record begins it.
    fn propose(
        &self,
        alloc: Global,
        session: SessionId,
        role: Role,
        terms: Terms,
    ) -> Result<SessionState, Memory>
        ensures { IfOk result (IsProposed (party_of self.now.log.setup) session role terms) }
    {
        let setup = self.log.setup();
        SessionState::propose(
            alloc,
            setup.name,
            setup.peer,
            self.log.key(),
            session,
            role,
            terms,
        )
    }
}

/// What is stored first is a record without a message.
fn start_note(alloc: Global, session: SessionId, rec: Rec) -> Result<Start, Memory>
    requires { IsFormedRec rec [] }
    ensures { IfOk result (IsRecordStart session rec None) }
{
    let payload = payload(alloc, session, rec, &[])?;
    Ok(Start::Record {
        rec,
        message: None,
        payload,
    })
}

/// What is stored first is that a message was taken.
fn start_taken(alloc: Global, session: SessionId, signed: Signed) -> Result<Start, Memory>
    requires { IsFormedRec (Rec.Took (kind_of signed.message.body)) signed.text }
    ensures { IfOk result (IsRecordStart session (Rec.Took (kind_of signed.message.body)) (Some signed)) }
{
    let rec = Rec::Took(signed.message.body.kind());
    let payload = payload(alloc, session, rec, signed.text.bytes())?;
    Ok(Start::Record {
        rec,
        message: Some(signed),
        payload,
    })
}

/// The payload of a record with its text.
fn payload(alloc: Global, session: SessionId, rec: Rec, text: &[u8]) -> Result<Text, Memory>
    requires { IsFormedRec rec text.now }
    ensures { IfOk result (λ payload. payload ≡ payload_in (stored session rec text.now)) }
{
    let text = Text::copy(alloc, text)?;
    encode(alloc, &Stored::Session { session, rec, text })
}
