ghost use Rattle.std.specs.Prelude.{◌≡◌, ◌↔◌, ◌++◌, ◌∷◌, [], ℕ, List, IfOk, IfSome, IsSome, map};
ghost use Rattle.std.specs.List.{All};
ghost use Rattle.std.specs.Option.{ForSome, option_copied};
ghost use Rattle.satp_base.specs.Canonical.{part_kind};
ghost use Rattle.satp_base.specs.Forms.{IsPart};
ghost use Rattle.satp_base.specs.Roles.{IsReached};
ghost use Rattle.satp_base.specs.Tales.{IsTale};
ghost use Rattle.satp_base.specs.declared.session.SessionId.{SessionId as Session};
ghost use Rattle.satp_chain.specs.Chained.{Chained, next_signed, tale_of};
ghost use Rattle.satp_chain.specs.Verdicts.{Follows};
ghost use Rattle.satp_log.specs.Journals.{payload_in};
ghost use Rattle.satp_records.specs.Formats.{IsFormedRec};
ghost use Rattle.satp_sides.specs.Due.{most_turns};
ghost use Rattle.satp_sides.specs.Logs.{IsNote};
ghost use Rattle.satp_sides.specs.Points.{stored};
ghost use Rattle.satp_plan.specs.Outlines.{FitsTale};
ghost use Rattle.satp_plan.specs.Plans.{Covers, HasNote, IsMakingOf, IsNoteOf, IsPlanOf, TakesOut, after_taken};

use crate::finding::{making_index, note_index};
use crate::outline::Outline;
use satp_base::{Memory, Part, Rec, SessionId, Text, View};
use satp_chain::{Chain, Signed};
use satp_jws::Key;
use satp_records::{Stored, encode};
use std::alloc::Global;
use std::marker::Model;

/// No due work takes more turns.
const MOST_TURNS: u8 = 3;

/// A record without a message that may come due.
#[derive(Drop)]
pub struct Note {
    pub rec: Rec,
    /// Its payload in the journal.
    pub payload: Text,
}

/// A message that may come due.
#[derive(Drop)]
pub struct Making {
    pub part: Part,
    pub signed: Signed,
    /// The payload of its record in the journal.
    pub payload: Text,
    /// Its text once more, which may be the reply.
    pub reply: Text,
}

/// Every record that may come due in a session, whatever the ledger answers.
#[derive(Drop)]
pub struct Plan {
    notes: Vec<Note>,
    makings: Vec<Making>,
}

impl Model for Plan {
    ghost use Rattle.satp_plan.specs.Plans.{PlanState};

    ghost Value = { PlanState };

    ghost view = { λ p. record { notes = p.notes.items; makings = p.makings.items } };
}

impl Plan {
    /// Makes every record that may come due in a session, whatever the ledger answers, with its payload. `view` is
    /// what the session's records say so far, and the messages go on with `chain`, onto which `taken` is still to be
    /// pushed if a message was taken.
    pub fn new(
        alloc: Global,
        key: &Key,
        session: SessionId,
        view: &View,
        chain: &Chain,
        taken: Option<&Signed>,
    ) -> Result<Plan, Memory>
        requires tale { view.now.tale ≡ tale_of (after_taken chain.now (option_copied taken)) }
        requires taken { ForSome (option_copied taken) (Follows chain.now) }
        requires reached { IsReached view.now.role view.now }
        ensures covers { IfOk result (λ plan. Covers most_turns plan view.now) }
        ensures made { IfOk result (IsPlanOf session (after_taken chain.now (option_copied taken.entry)) key.now) }
    {
        let outline = Outline::new(alloc, view, MOST_TURNS)?;
        let notes = notes(alloc, session, outline.recs.as_slice())?;
        let makings = makings(alloc, key, session, chain, taken, outline.parts.as_slice())?;
        Ok(Plan { notes, makings })
    }

    /// The payload of a record without a message; none exactly where the plan doesn't have it.
    pub fn note(&self, rec: &Rec) -> Option<&Text>
        ensures has { IsSome result ↔ HasNote self.now rec.now }
        ensures payload { (s : Session) (chain : Chained) (key : List ℕ) → IsPlanOf s chain key self.now
            → IfSome (option_copied result) (λ payload. payload ≡ payload_in (stored s rec.now [])) }
    {
        match note_index(self.notes.as_slice(), rec) {
            Some(index) => Some(&self.notes[index].payload),
            None => None,
        }
    }

    /// Takes out a message with this part; none exactly where the plan doesn't have one.
    pub fn take(&mut self, part: Part) -> Option<Making>
        ensures taken { TakesOut self.old self.new part result }
        ensures making { (s : Session) (chain : Chained) (key : List ℕ) → IsPlanOf s chain key self.old
            → IfSome result (IsMakingOf s chain key) }
    {
        match making_index(self.makings.as_slice(), &part) {
            Some(index) => Some(self.makings.remove(index)),
            None => None,
        }
    }
}

/// The notes of these records.
fn notes(alloc: Global, session: SessionId, recs: &[Rec]) -> Result<Vec<Note>, Memory>
    requires { All IsNote recs.now }
    ensures recs { IfOk result (λ notes. map (λ note. note.rec) notes.items ≡ recs.now) }
    ensures made { IfOk result (λ notes. All (IsNoteOf session) notes.items) }
{
    let mut notes = Vec::new(alloc);
    for rec in recs {
        let payload = payload(alloc, session, *rec, &[])?;
        notes.push(Note { rec: *rec, payload })?;
    }
    Ok(notes)
}

/// The chain's next messages with these parts.
fn makings(
    alloc: Global,
    key: &Key,
    session: SessionId,
    chain: &Chain,
    taken: Option<&Signed>,
    parts: &[Part],
) -> Result<Vec<Making>, Memory>
    requires taken { ForSome (option_copied taken) (Follows chain.now) }
    requires fitting { All (FitsTale (tale_of (after_taken chain.now (option_copied taken)))) parts.now }
    ensures parts { IfOk result (λ makings. map (λ making. making.part) makings.items ≡ parts.now) }
    ensures made { IfOk result
        (λ makings. All (IsMakingOf session (after_taken chain.now (option_copied taken.entry)) key.now) makings.items) }
{
    let mut makings = Vec::new(alloc);
    for part in parts {
        let signed = compose(alloc, key, chain, taken, *part)?;
        makings.push(made(alloc, session, *part, signed)?)?;
    }
    Ok(makings)
}

/// The chain's next message with this part, once `taken` is pushed.
fn compose(
    alloc: Global,
    key: &Key,
    chain: &Chain,
    taken: Option<&Signed>,
    part: Part,
) -> Result<Signed, Memory>
    requires taken { ForSome (option_copied taken) (Follows chain.now) }
    requires tale { IsTale (tale_of (after_taken chain.now (option_copied taken)) ++ part_kind part ∷ []) }
    requires formed { IsPart part }
    ensures next { IfOk result
        (λ signed. signed ≡ next_signed (after_taken chain.now (option_copied taken.entry)) key.now part) }
    ensures follows { IfOk result (λ signed. Follows (after_taken chain.now (option_copied taken.entry)) signed) }
{
    match taken {
        Some(signed) => chain.compose_on(alloc, key, signed, part),
        None => chain.compose(alloc, key, part),
    }
}

/// A message with the payload of its record, and its text once more.
fn made(alloc: Global, session: SessionId, part: Part, signed: Signed) -> Result<Making, Memory>
    requires { IsFormedRec (Rec.Made (part_kind part)) signed.text }
    ensures part { IfOk result (λ making. making.part ≡ part) }
    ensures signed { IfOk result (λ making. making.signed ≡ signed) }
    ensures payload { IfOk result
        (λ making. making.payload ≡ payload_in (stored session (Rec.Made (part_kind part)) signed.text)) }
    ensures reply { IfOk result (λ making. making.reply ≡ signed.text) }
{
    let payload = payload(alloc, session, Rec::Made(part.kind()), signed.text.bytes())?;
    let reply = Text::copy(alloc, signed.text.bytes())?;
    Ok(Making {
        part,
        signed,
        payload,
        reply,
    })
}

/// The payload of a record with its text.
fn payload(alloc: Global, session: SessionId, rec: Rec, text: &[u8]) -> Result<Text, Memory>
    requires { IsFormedRec rec text.now }
    ensures { IfOk result (λ payload. payload ≡ payload_in (stored session rec text.now)) }
{
    let text = Text::copy(alloc, text)?;
    encode(alloc, &Stored::Session { session, rec, text })
}
