ghost use Rattle.std.specs.Prelude.{◌≡◌, ◌≢◌, ◌<◌, ◌≤◌, ◌+◌, ℕ, List, Some, None, IfErr, length, slice_get};
ghost use Rattle.std.specs.Option.{option_copied};
ghost use Rattle.satp_sides.specs.Logs.{IsLog};
ghost use Rattle.satp_base.specs.declared.message.Role.TheVariants.{Origin, Recipient};
ghost use Rattle.satp_base.specs.declared.record.Rec.TheVariants.{Began};
ghost use Rattle.satp_sides.specs.LogLaws.{IsOfRole};
ghost use Rattle.satp_sides.specs.Points.{Stored as StoredOf, begun, most_sessions, view_in};
ghost use Rattle.satp_sides.specs.Calls.{text_of};
ghost use Rattle.satp_chain.specs.Chained.{texts_in};
ghost use Rattle.satp_records.specs.declared.stored.Setup.{Setup};
ghost use Rattle.satp_log.specs.Journals.{IsJournal, IsSomeJournal, party_of};
ghost use Rattle.satp_log.specs.Folding.{IsProposed, State, proposal_text, state_with, text_with};
ghost use Rattle.satp_log.specs.Logged.{AddsRecord, AddsTo, BeginsLog, Enters, FoundIn, HoldsOne, IsComing, IsPlaceOf, LogHolds, LogReads, ReadsFirst, Reserves, count_of, counts_with, fault_at, sessions_in, state_in, text_in};

use crate::fault::{LogFault, Misfit};
use crate::held::{Held, place_of};
use crate::state::SessionState;
use satp_base::{Memory, Rec, Role, SessionId, Terms, Texts, View};
use satp_chain::{Chain, Signed};
use satp_jws::Key;
use satp_records::{RecordFault, Setup, Stored, decode};
use std::alloc::Global;
use std::marker::Model;

/// The most sessions that a gateway begins in each role.
const MOST_SESSIONS: u32 = 2048;

/// What the records of a gateway's journal say: who the gateway is, and its sessions in the order of their first records.
#[derive(Drop)]
pub struct Log {
    setup: Setup,
    key: Key,
    entries: Vec<Held>,
    started: u32,
    accepted: u32,
}

impl Model for Log {
    ghost use Rattle.std.specs.Prelude.{◌≡◌, ◌-◌, vec_capacity, vec_len};
    ghost use Rattle.satp_log.specs.Logged.{LogState};

    ghost Value = { LogState };

    ghost view = { λ log. record {
      setup = log.setup;
      entries = log.entries.items;
      started = log.started;
      accepted = log.accepted;
      spare = vec_capacity log.entries - vec_len log.entries;
    } };

    ghost invariant = { λ log. log.key ≡ log.setup.key };
}

impl Log {
    /// The log of a journal's first record, which is a `Setup`.
    ///
    /// `Refused` comes exactly where no gateway's journal begins so.
    pub fn begin(alloc: Global, payload: &[u8]) -> Result<Log, Misfit>
        ensures { BeginsLog payload.now result }
    {
        let setup = match decode(alloc, payload) {
            Ok(Stored::Setup(setup)) => setup,
            Ok(_) => return Err(Misfit::Refused),
            Err(fault) => return Err(misfit_of(fault)),
        };
        match Key::new(setup.key.bytes()) {
            Ok(key) => Ok(Log {
                setup,
                key,
                entries: Vec::new(alloc),
                started: 0,
                accepted: 0,
            }),
            Err(_) => unreachable!(),
        }
    }

    /// The log of a gateway's journal: of its payloads, read in their order.
    ///
    /// `Empty` comes exactly where there are none. `Record` comes with the index, from 0, of the first payload that may not stand there, and only where there is one.
    /// So a gateway's journal is read unless no memory is found.
    pub fn read(alloc: Global, payloads: &Texts) -> Result<Log, LogFault>
        ensures reads { LogReads payloads.now result }
        ensures journal { IsSomeJournal payloads.now → IfErr result (λ fault. fault ≡ LogFault.Memory) }
    {
        let mut log = Log::first(alloc, payloads)?;
        for index in 1..payloads.length() {
            if let Err(misfit) = log.add(alloc, payload_at(payloads, index)) {
                return Err(fault_at(misfit, index));
            }
        }
        Ok(log)
    }

    /// The log of the first payload.
    fn first(alloc: Global, payloads: &Texts) -> Result<Log, LogFault>
        ensures { ReadsFirst payloads.now result }
    {
        match payloads.get(0) {
            Some(payload) => match Log::begin(alloc, payload.bytes()) {
                Ok(log) => Ok(log),
                Err(misfit) => Err(fault_at(misfit, 0)),
            },
            None => Err(LogFault::Empty),
        }
    }

    /// One record more.
    ///
    /// `Refused` comes exactly where the payloads with this one are no gateway's journal. It leaves the log as it was, and so does want of memory.
    pub fn add(&mut self, alloc: Global, payload: &[u8]) -> Result<(), Misfit>
        ensures { (payloads : List (List ℕ)) (setup : Setup) (xs : List StoredOf) → IsJournal payloads setup xs → LogHolds self.old setup xs → AddsTo payloads setup xs payload.now self.old self.new result }
    {
        match decode(alloc, payload) {
            Ok(stored) => match &stored {
                Stored::Session { session, rec, text } => {
                    self.add_record(alloc, *session, rec, text.bytes())
                }
                _ => Err(Misfit::Refused),
            },
            Err(fault) => Err(misfit_of(fault)),
        }
    }

    fn add_record(
        &mut self,
        alloc: Global,
        session: SessionId,
        rec: &Rec,
        text: &[u8],
    ) -> Result<(), Misfit>
        ensures { (setup : Setup) (xs : List StoredOf) → IsLog (party_of setup) xs → LogHolds self.old setup xs → AddsRecord setup xs session rec.now text.now self.old self.new result }
    {
        match place_of(self.entries.as_slice(), session) {
            Some(index) => match self.entries.get_mut(index) {
                Some(held) => held.state.add(alloc, &self.key, rec, text),
                None => unreachable!(),
            },
            None => self.add_session(alloc, session, rec, text),
        }
    }

    /// The first record of a session that no record names.
    fn add_session(
        &mut self,
        alloc: Global,
        session: SessionId,
        rec: &Rec,
        text: &[u8],
    ) -> Result<(), Misfit>
        requires { IsPlaceOf self.old.entries session None }
        ensures { (setup : Setup) (xs : List StoredOf) → IsLog (party_of setup) xs → LogHolds self.old setup xs → AddsRecord setup xs session rec.now text.now self.old self.new result }
    {
        let Some((started, accepted)) = counts_with(rec, self.started, self.accepted) else {
            return Err(Misfit::Refused);
        };
        let name = self.setup.name;
        let peer = self.setup.peer;
        match SessionState::begin(alloc, name, peer, &self.key, session, rec, text) {
            Ok(state) => match self.reserve() {
                Ok(()) => {
                    self.enter(session, state, started, accepted);
                    Ok(())
                }
                Err(_) => Err(Misfit::Memory),
            },
            Err(misfit) => Err(misfit),
        }
    }

    /// One entry more, for which there is room.
    fn enter(&mut self, session: SessionId, state: SessionState, started: u32, accepted: u32)
        requires { 1 ≤ self.old.spare }
        ensures { Enters self.old session state started accepted self.new }
    {
        match self.entries.push(Held { session, state }) {
            Ok(()) => {
                self.started = started;
                self.accepted = accepted;
            }
            Err(_) => unreachable!(),
        }
    }

    /// Finds room for one session more.
    pub fn reserve(&mut self) -> Result<(), Memory>
        ensures { Reserves self.old self.new result }
    {
        match self.entries.reserve(1) {
            Ok(()) => Ok(()),
            Err(_) => Err(Memory),
        }
    }

    /// One record more of a session that the log has, with the record's message where it has one. It takes no memory.
    pub fn push(&mut self, session: SessionId, rec: Rec, message: Option<Signed>)
        requires { IsComing self.old session rec message }
        ensures holds { (setup : Setup) (xs : List StoredOf) → IsLog (party_of setup) xs → LogHolds self.old setup xs → HoldsOne setup xs session rec (text_with message) self.new }
        ensures state { (state : State) → state_in session self.old.entries ≡ Some state → state_in session self.new.entries ≡ Some (state_with state rec message) }
        ensures setup { self.new.setup ≡ self.old.setup }
        ensures spare { self.new.spare ≡ self.old.spare }
    {
        match place_of(self.entries.as_slice(), session) {
            Some(index) => match self.entries.get_mut(index) {
                Some(held) => held.state.push(rec, message),
                None => unreachable!(),
            },
            None => unreachable!(),
        }
    }

    /// The first record of a session, which begins it in this role with these terms, and the state after it. There is
    /// room for the session. It takes no memory.
    pub fn push_session(
        &mut self,
        session: SessionId,
        role: Role,
        terms: Terms,
        state: SessionState,
    )
        requires room { 1 ≤ self.old.spare }
        requires new { state_in session self.old.entries ≡ None }
        requires proposed { IsProposed (party_of self.old.setup) session role terms state }
        requires count { count_of role self.old < most_sessions }
        requires role { IsOfRole (party_of self.old.setup) session role }
        ensures holds { (setup : Setup) (xs : List StoredOf) → IsLog (party_of setup) xs → LogHolds self.old setup xs → HoldsOne setup xs session (Began role terms) (proposal_text (party_of setup) session role terms) self.new }
        ensures state { state_in session self.new.entries ≡ Some state }
        ensures setup { self.new.setup ≡ self.old.setup }
        ensures spare { self.old.spare ≤ self.new.spare + 1 }
    {
        match role {
            Role::Origin => {
                self.enter(session, state, self.started + 1, self.accepted);
            }
            Role::Recipient => {
                self.enter(session, state, self.started, self.accepted + 1);
            }
        }
    }

    /// What the gateway was set up with.
    pub fn setup(&self) -> &Setup
        ensures { result.now ≡ self.now.setup }
    {
        &self.setup
    }

    /// The session that began as the one of this index, from 0; none exactly from the number of sessions on.
    pub fn session(&self, index: u32) -> Option<SessionId>
        ensures { (setup : Setup) (xs : List StoredOf) → LogHolds self.now setup xs → result ≡ slice_get (sessions_in xs) index }
    {
        match self.entries.get(index as usize) {
            Some(held) => Some(held.session),
            None => None,
        }
    }

    /// The key that the gateway signs with.
    pub fn key(&self) -> &Key
        ensures { result.now ≡ self.now.setup.key }
    {
        &self.key
    }

    /// How many sessions the gateway began as their origin.
    pub fn started(&self) -> u32
        ensures count { result ≡ count_of Origin self.now }
        ensures begun { (setup : Setup) (xs : List StoredOf) → LogHolds self.now setup xs → result ≡ begun Origin xs }
    {
        self.started
    }

    /// How many sessions of its peer it accepted.
    pub fn accepted(&self) -> u32
        ensures count { result ≡ count_of Recipient self.now }
        ensures begun { (setup : Setup) (xs : List StoredOf) → LogHolds self.now setup xs → result ≡ begun Recipient xs }
    {
        self.accepted
    }

    /// What the records say of a session, with its chain; none exactly where no record names it.
    pub fn find(&self, session: SessionId) -> Option<&SessionState>
        ensures state { option_copied result ≡ state_in session self.now.entries }
        ensures found { (setup : Setup) (xs : List StoredOf) → LogHolds self.now setup xs → FoundIn (party_of setup) session xs (option_copied result) }
    {
        match place_of(self.entries.as_slice(), session) {
            Some(index) => match self.entries.get(index) {
                Some(held) => Some(&held.state),
                None => unreachable!(),
            },
            None => None,
        }
    }

    /// What the records say of a session; none exactly where no record names it.
    pub fn view(&self, session: SessionId) -> Option<View>
        ensures { (setup : Setup) (xs : List StoredOf) → LogHolds self.now setup xs → result ≡ view_in session xs }
    {
        match self.find(session) {
            Some(state) => Some(*state.view()),
            None => None,
        }
    }

    /// The text at a place of a session's chain, from 1; none exactly where the records hold no text of that place.
    pub fn text(&self, session: SessionId, place: u8) -> Option<&[u8]>
        ensures { (setup : Setup) (xs : List StoredOf) → LogHolds self.now setup xs → option_copied result ≡ text_in session xs place }
    {
        match self.find(session) {
            Some(state) => text_at(state.chain(), place),
            None => None,
        }
    }
}

fn text_at(chain: &Chain, place: u8) -> Option<&[u8]>
    ensures { option_copied result ≡ text_of (texts_in chain.now) place }
{
    match chain.entry(place) {
        Some(signed) => Some(signed.text.bytes()),
        None => None,
    }
}

/// The counts with a session that the record begins; none where it is one too many of its role.
fn counts_with(rec: &Rec, started: u32, accepted: u32) -> Option<(u32, u32)>
    ensures { result ≡ counts_with rec.now started accepted }
{
    match *rec {
        Rec::Began(Role::Origin, _) => {
            if started < MOST_SESSIONS {
                Some((started + 1, accepted))
            } else {
                None
            }
        }
        Rec::Began(Role::Recipient, _) => {
            if accepted < MOST_SESSIONS {
                Some((started, accepted + 1))
            } else {
                None
            }
        }
        _ => Some((started, accepted)),
    }
}

/// The payload at an index below their number.
fn payload_at(payloads: &Texts, index: usize) -> &[u8]
    requires { index < length payloads.now }
    ensures { slice_get payloads.now index ≡ Some result.now }
{
    match payloads.get(index) {
        Some(payload) => payload.bytes(),
        None => unreachable!(),
    }
}

/// The fault of a payload at an index that isn't added.
fn fault_at(misfit: Misfit, index: usize) -> LogFault
    ensures { result ≡ fault_at misfit index }
{
    match misfit {
        Misfit::Refused => LogFault::Record { index },
        Misfit::Memory => LogFault::Memory,
    }
}

fn misfit_of(fault: RecordFault) -> Misfit
    ensures memory { fault ≡ RecordFault.Memory → result ≡ Misfit.Memory }
    ensures other { fault ≢ RecordFault.Memory → result ≡ Misfit.Refused }
{
    match fault {
        RecordFault::Memory => Misfit::Memory,
        _ => Misfit::Refused,
    }
}
