ghost use Rattle.std.specs.Prelude.{◌≡◌, ◌↔◌, ◌⊎◌, ◌∷◌, ◌++◌, ◌<◌, ℕ, List, [], Some, None, IfOk, IsTrue};
ghost use Rattle.satp_base.specs.Canonical.{part_kind};
ghost use Rattle.satp_base.specs.Forms.{IsPart, is_plain};
ghost use Rattle.satp_base.specs.Roles.{RoleRule};
ghost use Rattle.satp_base.specs.Tales.{IsTale};
ghost use Rattle.satp_base.specs.Views.{begin, push};
ghost use Rattle.satp_chain.specs.Chained.{next_signed, tale_of};
ghost use Rattle.satp_sides.specs.LogLaws.{IsOfRole};
ghost use Rattle.satp_sides.specs.Points.{Party, Stored, recipient_at, records_of};
ghost use Rattle.satp_log.specs.Folding.{AddAnswers, AddsOne, BeginAnswers, FitsChain, FitsKind, HasKind, HasRoom, HasText, IsNextOf, IsNextOfSome, IsProposed, IsStateOf, MessageAnswers, state_with, text_with};

use crate::fault::Misfit;
use satp_base::{Kind, Memory, Name, Part, Reason, Rec, Role, SessionId, Terms, View};
use satp_chain::{Chain, Signed};
use satp_jws::Key;
use std::alloc::Global;
use std::marker::Model;

/// What a gateway's records say of one session: its view, and its chain.
#[derive(Drop)]
pub struct SessionState {
    view: View,
    chain: Chain,
}

impl Model for SessionState {
    ghost use Rattle.satp_log.specs.Folding.{IsSound, State};

    ghost Value = { State };

    ghost view = { λ s. record { view = s.view; chain = s.chain } };

    ghost invariant = { λ s. IsSound s.view s.chain };
}

impl SessionState {
    /// The state after the first record of a session.
    ///
    /// `Refused` comes exactly where the record may not be the first, given that there is room for one more session of its role: it is no `Began`, its role isn't the one
    /// that the session's gateway gives, or its text isn't the proposal's with its terms.
    pub fn begin(
        alloc: Global,
        name: Name,
        peer: Name,
        key: &Key,
        session: SessionId,
        rec: &Rec,
        text: &[u8],
    ) -> Result<SessionState, Misfit>
        ensures { (p : Party) (xs : List Stored) → p ≡ record { name = name; peer = peer; key = key.now } → records_of session xs ≡ [] → HasRoom rec.now xs → BeginAnswers p session xs rec.now text.now result }
    {
        let Rec::Began(role, terms) = *rec else {
            return Err(Misfit::Refused);
        };
        if !is_of_role(role, name, peer, session) {
            return Err(Misfit::Refused);
        }
        let mut chain = Chain::new(alloc, session, recipient_of(role, name, peer))?;
        match with_text(alloc, key, &chain, Part::Proposal(terms), text)? {
            Some(proposal) => {
                chain.push(proposal);
                let view = View::begin(role, terms);
                Ok(SessionState { view, chain })
            }
            None => Err(Misfit::Refused),
        }
    }

    /// The state after the first record of a session, which begins it in this role with these terms. Its proposal is composed.
    pub fn propose(
        alloc: Global,
        name: Name,
        peer: Name,
        key: &Key,
        session: SessionId,
        role: Role,
        terms: Terms,
    ) -> Result<SessionState, Memory>
        ensures { (p : Party) → p ≡ record { name = name; peer = peer; key = key.now } → IfOk result (IsProposed p session role terms) }
    {
        let mut chain = Chain::new(alloc, session, recipient_of(role, name, peer))?;
        let proposal = chain.compose(alloc, key, Part::Proposal(terms))?;
        chain.push(proposal);
        let view = View::begin(role, terms);
        Ok(SessionState { view, chain })
    }

    /// One record more.
    ///
    /// `Refused` comes exactly where it may not come: the role's rule doesn't allow it, or its text isn't the chain's next with its kind. It leaves the state as it was, and so does want of memory.
    pub fn add(&mut self, alloc: Global, key: &Key, rec: &Rec, text: &[u8]) -> Result<(), Misfit>
        ensures { (p : Party) (s : SessionId) (xs : List Stored) → p.key ≡ key.now → IsStateOf p s xs self.old → AddAnswers p s xs self.old rec.now text.now self.new result }
    {
        if !allows(&self.view, rec) {
            return Err(Misfit::Refused);
        }
        match message(alloc, key, &self.chain, rec, text) {
            Ok(message) => {
                self.push(*rec, message);
                Ok(())
            }
            Err(misfit) => Err(misfit),
        }
    }

    /// One record more, which may come, with its message where it has one. It takes no memory.
    pub fn push(&mut self, rec: Rec, message: Option<Signed>)
        requires { IsNextOfSome self.old rec message }
        ensures state { self.new ≡ state_with self.old rec message }
        ensures more { (p : Party) (s : SessionId) (xs : List Stored) → IsStateOf p s xs self.old → IsNextOf self.old p.key rec message → AddsOne p s xs rec (text_with message) self.new }
    {
        match message {
            Some(signed) => {
                self.chain.push(signed);
                self.view.push(rec);
            }
            None => self.view.push(rec),
        }
    }

    /// What the session's records say.
    pub fn view(&self) -> &View
        ensures { result.now ≡ self.now.view }
    {
        &self.view
    }

    /// The chain of the session's messages.
    pub fn chain(&self) -> &Chain
        ensures { result.now ≡ self.now.chain }
    {
        &self.chain
    }
}

/// Whether the session's gateway gives this role.
fn is_of_role(role: Role, name: Name, peer: Name, session: SessionId) -> bool
    ensures { (key : List ℕ) → IsTrue result ↔ IsOfRole (record { name = name; peer = peer; key = key }) session role }
{
    match role {
        Role::Origin => is_same(session.gateway, name),
        Role::Recipient => is_same(session.gateway, peer),
    }
}

fn is_same(a: Name, b: Name) -> bool
    ensures { IsTrue result ↔ (a ≡ b) }
{
    a == b
}

/// The recipient of a session in this role.
fn recipient_of(role: Role, name: Name, peer: Name) -> Name
    ensures { (key : List ℕ) → result ≡ recipient_at (record { name = name; peer = peer; key = key }) role }
{
    match role {
        Role::Origin => peer,
        Role::Recipient => name,
    }
}

/// Whether the role's rule allows the record.
fn allows(view: &View, rec: &Rec) -> bool
    ensures { IsTrue result ↔ RoleRule view.now.role view.now rec.now }
{
    match view.role {
        Role::Origin => satp_origin::allows(view, rec),
        Role::Recipient => satp_recipient::allows(view, rec),
    }
}

/// The message of a record that the role's rule allows, where this is its text; none of a record without a message.
fn message(
    alloc: Global,
    key: &Key,
    chain: &Chain,
    rec: &Rec,
    text: &[u8],
) -> Result<Option<Signed>, Misfit>
    requires { FitsChain chain.now rec.now }
    ensures { MessageAnswers chain.now key.now rec.now text.now result }
{
    match *rec {
        Rec::Took(kind) | Rec::Made(kind) => match of_kind(alloc, key, chain, kind, text)? {
            Some(signed) => Ok(Some(signed)),
            None => Err(Misfit::Refused),
        },
        _ => {
            if text.is_empty() {
                Ok(None)
            } else {
                Err(Misfit::Refused)
            }
        }
    }
}

/// The next message of the chain, of this kind, where this is its text.
fn of_kind(
    alloc: Global,
    key: &Key,
    chain: &Chain,
    kind: Kind,
    text: &[u8],
) -> Result<Option<Signed>, Memory>
    requires { FitsKind chain.now kind }
    ensures { IfOk result (HasKind chain.now key.now kind text.now) }
{
    if kind == Kind::Reject {
        return rejecting(alloc, key, chain, text);
    }
    with_text(alloc, key, chain, Part::Plain(kind), text)
}

/// The next message of the chain, a `reject` of whatever reason, where this is its text.
fn rejecting(alloc: Global, key: &Key, chain: &Chain, text: &[u8]) -> Result<Option<Signed>, Memory>
    requires { FitsKind chain.now Kind.Reject }
    ensures { IfOk result (HasKind chain.now key.now Kind.Reject text.now) }
{
    let asset = with_text(alloc, key, chain, Part::Reject(Reason::UnknownAsset), text)?;
    if asset.is_some() {
        return Ok(asset);
    }
    let capped = with_text(alloc, key, chain, Part::Reject(Reason::MintCapped), text)?;
    if capped.is_some() {
        return Ok(capped);
    }
    let aborted = with_text(alloc, key, chain, Part::Reject(Reason::Aborted), text)?;
    if aborted.is_some() {
        return Ok(aborted);
    }
    with_text(alloc, key, chain, Part::Reject(Reason::LedgerTaken), text)
}

/// The next message of the chain, with this part, where this is its text.
fn with_text(
    alloc: Global,
    key: &Key,
    chain: &Chain,
    part: Part,
    text: &[u8],
) -> Result<Option<Signed>, Memory>
    requires tale { IsTale (tale_of chain.now ++ part_kind part ∷ []) }
    requires formed { IsPart part }
    ensures { IfOk result (HasText chain.now key.now part text.now) }
{
    let signed = chain.compose(alloc, key, part)?;
    if signed.text.bytes() == text {
        Ok(Some(signed))
    } else {
        Ok(None)
    }
}
