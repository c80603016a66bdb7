ghost use Rattle.std.specs.Prelude.{◌≡◌, ◌≤◌, ℕ, IfErr, IfOk, Option, Some};
ghost use Rattle.std.specs.Option.{option_copied};
ghost use Rattle.satp_base.specs.Chains.{head_of, role_at};
ghost use Rattle.satp_base.specs.Tales.{is_role};
ghost use Rattle.satp_base.specs.declared.message.Body.TheVariants as body;
ghost use Rattle.satp_base.specs.declared.message.Message.{Message as MessageOf};
ghost use Rattle.satp_sides.specs.Calls.{IsEntryOf, IsOwn, own_at};
ghost use Rattle.satp_sides.specs.Points.{Slot, chain_in, is_session, slot_in};
ghost use Rattle.satp_decisions.specs.Tests.{DecidesMessage, HasEntry, IsHeld, IsOfTest, IsOfTestOrMemory, OverLog};
ghost use Rattle.satp_decisions.specs.Steps.{AdoptsEntry, FindsEntry, IsOne, OverGateways, asked_decision, is_of_chain};

use crate::addressed::is_addressed;
use crate::on_chain::{take as take_next, verdict};
use crate::own::rescued;
use satp_base::{Body, Head, Link, Memory, Message, Role, SessionId, Text, Texts, Verdict};
use satp_chain::Signed;
use satp_log::{Log, Unheard, hear};
use satp_messages::nothing_known;
use satp_points::{Decision, Refused, Replying};
use satp_recovery::{RecoveryFault, Step, agree, answer, take};
use std::alloc::Global;

/// The peer began a recovery round, and says what it has of the chain: `length` messages, of which the last has the link `last`.
///
/// `Recovery` comes where that can't be.
pub fn recover(
    alloc: Global,
    log: &Log,
    heard: &Signed,
    length: u8,
    last: Link,
) -> Result<Decision, Refused>
    requires own { IsOwn log.now.setup.key heard.now.text heard.now.message }
    requires body { heard.now.message.body ≡ body.Recover length last }
    ensures decides { (e : Option MessageOf) → DecidesMessage heard.now.message heard.now.text e log.now result }
    ensures only { IfErr result IsOfTestOrMemory }
{
    let session = heard.message.session;
    match answer(&head(log, session), length, last) {
        Ok(_) => match asked(alloc, log, session, length) {
            Ok(decision) => Ok(decision),
            Err(Memory) => Err(Refused::Memory),
        },
        Err(fault) => Err(Refused::Recovery { fault }),
    }
}

/// What a side that is asked for its chain says to a peer that has a chain of this length.
fn asked(alloc: Global, log: &Log, session: SessionId, length: u8) -> Result<Decision, Memory>
    ensures { OverLog log.now (λ p xs. IfOk result (λ decision. decision ≡ asked_decision p session length (slot_in session xs))) }
{
    match log.find(session) {
        Some(state) => Ok(Decision::Works {
            session,
            first: rescued(state.view()),
            replying: Replying::Update { given: length },
        }),
        None => Ok(Decision::Gives {
            reply: Some(nothing_known(alloc, log, session)?),
        }),
    }
}

/// The peer answers in a recovery round: it has `length` messages, and these are the ones that this side lacks.
///
/// `Recovery` comes where that can't be, or where the entry isn't the next message of the chain; else `Full` where a session would begin and 2,048 sessions were accepted.
pub fn update(
    alloc: Global,
    log: &Log,
    heard: &Signed,
    length: u8,
    entries: &Texts,
) -> Result<Decision, Refused>
    requires own { IsOwn log.now.setup.key heard.now.text heard.now.message }
    requires holds { IsHeld log.now }
    requires body { heard.now.message.body ≡ body.Update length entries.now }
    ensures decides { (e : Option MessageOf) → IsEntryOf log.now.setup.key heard.now.message.body e → DecidesMessage heard.now.message heard.now.text e log.now result }
    ensures entry { IfOk result (λ _. HasEntry log.now.setup.key heard.now.message.body) }
    ensures only { IfErr result IsOfTestOrMemory }
{
    let session = heard.message.session;
    match take(&head(log, session), length, entries.length()) {
        Ok(Step::Adopt { place }) => adopt(alloc, log, session, entries, place),
        Ok(Step::Resend { place }) => match standing(alloc, log, session, place) {
            Ok(reply) => Ok(Decision::Gives { reply }),
            Err(Memory) => Err(Refused::Memory),
        },
        Ok(Step::Equal) => Ok(Decision::Gives { reply: None }),
        Err(fault) => Err(Refused::Recovery { fault }),
    }
}

/// The peer ends a recovery round: both chains are one.
///
/// `Recovery` comes where they aren't.
pub fn succeed(log: &Log, heard: &Signed, length: u8, last: Link) -> Result<Decision, Refused>
    requires own { IsOwn log.now.setup.key heard.now.text heard.now.message }
    requires body { heard.now.message.body ≡ body.Success length last }
    ensures decides { (e : Option MessageOf) → DecidesMessage heard.now.message heard.now.text e log.now result }
    ensures only { IfErr result IsOfTestOrMemory }
{
    match agree(&head(log, heard.message.session), length, last) {
        Ok(()) => Ok(Decision::Gives { reply: None }),
        Err(fault) => Err(Refused::Recovery { fault }),
    }
}

/// How long the session's chain is, and the links of its last two texts. A session that no record names has an empty chain.
fn head(log: &Log, session: SessionId) -> Head
    ensures head { OverGateways log.now (λ p xs. result ≡ head_of (chain_in session xs)) }
    ensures within { result.length ≤ 11 }
{
    match log.find(session) {
        Some(state) => state.chain().head(),
        None => Head {
            length: 0,
            last: Link([0; 32]),
            before: Link([0; 32]),
        },
    }
}

/// Takes the one entry of an update as the message at this place.
fn adopt(
    alloc: Global,
    log: &Log,
    session: SessionId,
    entries: &Texts,
    place: u8,
) -> Result<Decision, Refused>
    requires holds { IsHeld log.now }
    requires one { IsOne entries.now }
    ensures adopts { AdoptsEntry session entries.now place log.now result }
    ensures entry { (n : ℕ) → IfOk result (λ _. HasEntry log.now.setup.key (body.Update n entries.now)) }
    ensures only { IfErr result IsOfTestOrMemory }
{
    let Some(entry) = entries.get(0) else {
        unreachable!();
    };
    match next_in(alloc, log, session, entry.bytes()) {
        Ok(Some(signed)) => take_next(log, signed),
        Ok(None) => Err(Refused::Recovery {
            fault: RecoveryFault::EntryRefused { place },
        }),
        Err(Memory) => Err(Refused::Memory),
    }
}

/// The message whose own text this is, if it is from the peer to this gateway, and the next one of the session's chain.
fn next_in(
    alloc: Global,
    log: &Log,
    session: SessionId,
    text: &[u8],
) -> Result<Option<Signed>, Memory>
    requires holds { IsHeld log.now }
    ensures { FindsEntry session text.now log.now result }
{
    let entry = match hear(alloc, log.key(), text) {
        Ok(entry) => entry,
        Err(Unheard::Memory) => return Err(Memory),
        Err(_) => return Ok(None),
    };
    if !is_of_chain(log, session, &entry.message) {
        return Ok(None);
    }
    match verdict(alloc, log, &entry)? {
        Verdict::Next => Ok(Some(entry)),
        _ => Ok(None),
    }
}

/// Whether this is a chain message of the session, from the peer to this gateway.
fn is_of_chain(log: &Log, session: SessionId, message: &Message) -> bool
    ensures { OverLog log.now (λ p xs. result ≡ is_of_chain p session message.now) }
{
    is_addressed(log.setup(), message)
        && is_same(session, message.session)
        && matches!(message.body, Body::Chain { .. })
}

fn is_same(a: SessionId, b: SessionId) -> bool
    ensures { result ≡ is_session a b }
{
    a == b
}

/// This side's text at a place of the session's chain; none where there is none.
fn standing(alloc: Global, log: &Log, session: SessionId, place: u8) -> Result<Option<Text>, Memory>
    ensures { OverLog log.now (λ p xs. IfOk result (λ text. (l : Slot) → slot_in session xs ≡ Some l → text ≡ own_at place l)) }
{
    match log.find(session) {
        Some(state) => {
            if is_own(state.view().role, place) {
                copied(alloc, log.text(session, place))
            } else {
                Ok(None)
            }
        }
        None => Ok(None),
    }
}

/// A copy of the text, if there is one.
fn copied(alloc: Global, text: Option<&[u8]>) -> Result<Option<Text>, Memory>
    ensures { IfOk result (λ copy. copy ≡ option_copied text.entry) }
{
    match text {
        Some(bytes) => Ok(Some(Text::copy(alloc, bytes)?)),
        None => Ok(None),
    }
}

/// Whether the place is one of this side: odd places are the origin's, even ones the recipient's.
fn is_own(role: Role, place: u8) -> bool
    ensures { result ≡ is_role role (Some (role_at place)) }
{
    match role_at(place) {
        Role::Origin => matches!(role, Role::Origin),
        Role::Recipient => matches!(role, Role::Recipient),
    }
}

fn role_at(place: u8) -> Role
    ensures { result ≡ role_at place }
{
    if place % 2 == 1 {
        Role::Origin
    } else {
        Role::Recipient
    }
}
