ghost use Rattle.std.specs.Prelude.{◌≡◌, IfOk, List, OnOk, option_and_then, slice_get};
ghost use Rattle.std.specs.Option.{ForSome, option_copied};
ghost use Rattle.satp_base.specs.Tales.{last_by};
ghost use Rattle.satp_chain.specs.Chained.{texts_in};
ghost use Rattle.satp_chain.specs.Verdicts.{Follows};
ghost use Rattle.satp_log.specs.Folding.{IsSound, State};
ghost use Rattle.satp_log.specs.Journals.{party_of};
ghost use Rattle.satp_log.specs.Logged.{with_spare};
ghost use Rattle.satp_plan.specs.Plans.{after_taken};
ghost use Rattle.satp_records.specs.declared.stored.Setup.{Setup};
ghost use Rattle.satp_sides.specs.Calls.{text_of};
ghost use Rattle.satp_sides.specs.Points.{Stored, Text as Bytes, slot};
ghost use Rattle.satp_points.specs.Decisions.{FirstMayCome};
ghost use Rattle.satp_engine.specs.Preparing.{IsPrepared, IsProvided, Provides};
ghost use Rattle.satp_engine.specs.Replies.{place_by, standing_by};
ghost use Rattle.satp_engine.specs.Starting.{StartFits};
ghost use Rattle.satp_engine.specs.Working.{HasRoom, HasState, Keeps, KeepsSome};

use crate::records::Records;
use crate::start::Start;
use satp_base::{Memory, Role, SessionId, Tale, Text, View};
use satp_chain::{Chain, Signed};
use satp_jws::Key;
use satp_log::SessionState;
use satp_plan::Plan;
use satp_points::{First, Replying};
use std::alloc::Global;

/// The records that a call stores at most: a first one, and those of its due work.
const MOST_RECORDS: usize = 4;

/// The bytes of a record's payload at most.
const MOST_BYTES: usize = 4096;

/// What the due work of a session takes, and the text that is the reply unless a message is made.
#[derive(Drop)]
pub struct Provision {
    pub plan: Plan,
    pub standing: Option<Text>,
}

/// All that a call takes memory for before it stores anything.
#[derive(Drop)]
pub struct Prepared {
    pub start: Start,
    pub provision: Provision,
}

impl Records {
    /// Makes what a call stores first and what its due work may store, and finds the room for both.
    pub fn prepare(
        &mut self,
        alloc: Global,
        session: SessionId,
        first: First,
        replying: Replying,
    ) -> Result<Prepared, Memory>
        requires kept { KeepsSome self.old }
        requires may { (setup : Setup) (xs : List Stored) → Keeps self.old setup xs → FirstMayCome (party_of setup) session xs first }
        ensures prepared { IfOk result (IsPrepared self.new.log session first replying) }
        ensures room { OnOk result (HasRoom 4 self.new.journal) }
        ensures held { self.new.journal.held ≡ self.old.journal.held }
        ensures log { self.new.log ≡ with_spare self.old.log self.new.log.spare }
    {
        let start = self.start(alloc, session, first)?;
        let provision = self.provide(alloc, session, &start, replying)?;
        self.journal
            .reserve(MOST_RECORDS, MOST_RECORDS * MOST_BYTES)?;
        Ok(Prepared { start, provision })
    }

    /// What the due work of a session takes, after what is stored first.
    fn provide(
        &self,
        alloc: Global,
        session: SessionId,
        start: &Start,
        replying: Replying,
    ) -> Result<Provision, Memory>
        requires kept { KeepsSome self.now }
        requires fits { (after : State) × StartFits self.now.log session start.now after }
        ensures { IfOk result (Provides self.now.log session start.now replying) }
    {
        let key = self.log.key();
        match start {
            Start::Nothing => {
                let state = self.state(session);
                provide_at(
                    alloc,
                    key,
                    session,
                    state.view(),
                    state.chain(),
                    None,
                    replying,
                )
            }
            Start::Record { rec, message, .. } => {
                let state = self.state(session);
                let mut view = *state.view();
                view.push(*rec);
                provide_at(
                    alloc,
                    key,
                    session,
                    &view,
                    state.chain(),
                    message.as_ref(),
                    replying,
                )
            }
            Start::Session { state, .. } => provide_at(
                alloc,
                key,
                session,
                state.view(),
                state.chain(),
                None,
                replying,
            ),
        }
    }

    /// The state of a session that the log has.
    pub fn state(&self, session: SessionId) -> &SessionState
        requires { (state : State) × HasState self.now.log session state }
        ensures { HasState self.now.log session result.now }
    {
        match self.log.find(session) {
            Some(state) => state,
            None => unreachable!(),
        }
    }
}

/// What the due work of a session takes whose view is this. Its chain is `chain`, onto which `taken` is still to be pushed
/// if a message is taken.
fn provide_at(
    alloc: Global,
    key: &Key,
    session: SessionId,
    view: &View,
    chain: &Chain,
    taken: Option<&Signed>,
    replying: Replying,
) -> Result<Provision, Memory>
    requires sound { IsSound view.now (after_taken chain.now (option_copied taken)) }
    requires taken { ForSome (option_copied taken) (Follows chain.now) }
    ensures { IfOk result (IsProvided session key.now view.now (after_taken chain.now (option_copied taken.entry)) replying) }
{
    let standing = standing(alloc, view, chain, taken, replying)?;
    let plan = Plan::new(alloc, key, session, view, chain, taken)?;
    Ok(Provision { plan, standing })
}

/// A copy of the text that is the reply, of those that a chain has and of the one that is taken.
fn standing(
    alloc: Global,
    view: &View,
    chain: &Chain,
    taken: Option<&Signed>,
    replying: Replying,
) -> Result<Option<Text>, Memory>
    ensures { IfOk result (λ text. text ≡ standing_by replying (slot view.now (texts_in (after_taken chain.now (option_copied taken.entry))))) }
{
    match index_by(replying, view) {
        Some(index) => copy_at(alloc, chain, taken, index),
        None => Ok(None),
    }
}

/// The index, from 0, of the text that is the reply; none where no text of the chain is.
fn index_by(replying: Replying, view: &View) -> Option<u8>
    ensures { (texts : List Bytes) → option_and_then (slice_get texts) result ≡ option_and_then (text_of texts) (place_by replying view.now.role view.now.tale) }
{
    let tale = &view.tale;
    match replying {
        Replying::LastUnlessWhole => {
            if tale.whole() {
                None
            } else {
                before(tale.length())
            }
        }
        Replying::LastOwn => {
            if is_last(view.role, tale) {
                before(tale.length())
            } else {
                None
            }
        }
        Replying::Again { place } => again_index(place, view),
        Replying::Nothing | Replying::Recover | Replying::Update { .. } => None,
    }
}

/// The same of what answers the message at a place that the chain has already.
fn again_index(place: u8, view: &View) -> Option<u8>
    ensures { (texts : List Bytes) → option_and_then (slice_get texts) result ≡ option_and_then (text_of texts) (place_by (Replying.Again place) view.now.role view.now.tale) }
{
    let tale = &view.tale;
    let length = tale.length();
    if !tale.whole() {
        Some(place)
    } else if place == length {
        None
    } else if is_last(view.role, tale) {
        before(length)
    } else {
        before(length.saturating_sub(1))
    }
}

/// Whether the last message is this side's.
fn is_last(role: Role, tale: &Tale) -> bool
    ensures { result ≡ last_by role tale.now }
{
    match tale.last() {
        Some(kind) => kind.is_by(role),
        None => false,
    }
}

/// The index, from 0, of a place, from 1; none of the place 0.
fn before(place: u8) -> Option<u8>
    ensures { (texts : List Bytes) → option_and_then (slice_get texts) result ≡ text_of texts place }
{
    if place == 0 { None } else { Some(place - 1) }
}

/// A copy of the text at an index, from 0; none where the chain has no text there.
fn copy_at(
    alloc: Global,
    chain: &Chain,
    taken: Option<&Signed>,
    index: u8,
) -> Result<Option<Text>, Memory>
    ensures { IfOk result (λ text. text ≡ slice_get (texts_in (after_taken chain.now (option_copied taken.entry))) index) }
{
    let length = chain.tale().length();
    if index < length {
        return copy_entry(alloc, chain, index + 1);
    }
    let Some(signed) = taken else {
        return Ok(None);
    };
    if index == length {
        Ok(Some(Text::copy(alloc, signed.text.bytes())?))
    } else {
        Ok(None)
    }
}

/// A copy of the text at a place, from 1; none where no message stands there.
fn copy_entry(alloc: Global, chain: &Chain, place: u8) -> Result<Option<Text>, Memory>
    ensures { IfOk result (λ text. text ≡ text_of (texts_in chain.now) place) }
{
    match chain.entry(place) {
        Some(signed) => Ok(Some(Text::copy(alloc, signed.text.bytes())?)),
        None => Ok(None),
    }
}
