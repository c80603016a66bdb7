//! The message that a JSON value is, with the first fault of its values.

ghost use Rattle.std.specs.Prelude.{◌≡◌, ◌≤◌, [], ◌∷◌, ◌⊎◌, map, option_and_then, None, Some, IfErr, IfOk, IfSome, OnOk, IsTrue, is_some};
ghost use Rattle.std.specs.List.{AllByRecursion};
ghost use Rattle.std.specs.Result.{result_err};
ghost use Rattle.serde_json.specs.Data.{string};
ghost use Rattle.serde_json.specs.Find.{as_str, get};
ghost use Rattle.serde_json.specs.View.{items_view, view};
ghost use Rattle.satp_base.specs.Canonical.{fields, kind_named, kind_of, kind_text, member_text, link_text, row, terms_fields, terms_row};
ghost use Rattle.satp_base.specs.Forms.{IsLink, IsMessage, IsPlace, is_plain};
ghost use Rattle.satp_base.specs.Values.{name_text, session_text};
ghost use Rattle.serde_json.specs.Data.{array, number, unsigned};
ghost use Rattle.satp_base.specs.declared.member.MemberName.TheVariants as which_member;
ghost use Rattle.satp_base.specs.declared.message.Kind.TheVariants as which_kind;
ghost use Rattle.satp_canon.specs.FirstFault.{are_entries, data_fault, kind_fault, first_of, form_fault, member_fault, terms_fault, values_fault};
ghost use Rattle.satp_canon.specs.Reads.{Holds, Reads, scalar_data};
ghost use Rattle.satp_base.specs.declared.message.Body.TheVariants.{Chain};
ghost use Rattle.satp_canon.specs.declared.fault.CanonFault.TheVariants.{Memory};

use crate::entries::{copies, entries_at};
use crate::fault::CanonFault;
use crate::members::odd_member;
use crate::names::kind_named;
use crate::row::row;
use crate::values::{
    amount_at, length_at, link_at, name_at, place_at, reason_at, session_at, version_at,
};
use satp_base::{Body, Kind, Link, MemberName, Message, Name, Part, SessionId, Terms};
use serde_json::Value;
use std::alloc::Global;

/// The message that a JSON value is.
pub fn message_of(alloc: Global, value: &Value) -> Result<Message, CanonFault>
    ensures message { IfOk result IsMessage }
    ensures reads { IfOk result (λ m. Reads m (view value.now)) }
    ensures fine { OnOk result (None ≡ data_fault (view value.now)) }
    ensures fault { IfErr result (λ f. (f ≡ Memory) ⊎ (Some f ≡ data_fault (view value.now))) }
{
    match kind_at(value) {
        Ok(kind) => match odd_member(value, row(kind)) {
            Some(fault) => Err(fault),
            None => of_kind(alloc, value, kind),
        },
        Err(fault) => Err(fault),
    }
}

fn kind_at(value: &Value) -> Result<Kind, CanonFault>
    ensures ok { IfOk result (λ k. get (member_text which_member.Kind) (view value.now) ≡ Some (string (kind_text k))) }
    ensures kind { IfOk result (λ k. data_fault (view value.now) ≡ kind_fault (view value.now) (Some k)) }
    ensures fault { IfErr result (λ f. Some f ≡ data_fault (view value.now)) }
{
    match value.get("kind") {
        Some(found) => match kind_in(found) {
            Some(kind) => Ok(kind),
            None => Err(CanonFault::Value {
                which: MemberName::Kind,
            }),
        },
        None => Err(CanonFault::Member {
            which: MemberName::Kind,
        }),
    }
}

fn kind_in(value: &Value) -> Option<Kind>
    ensures named { result ≡ option_and_then kind_named (as_str (view value.now)) }
    ensures text { IfSome result (λ k. view value.now ≡ string (kind_text k)) }
{
    match value.as_str() {
        Some(text) => kind_named(text.as_bytes()),
        None => None,
    }
}

/// The message of this kind, whose members are those of the kind.
fn of_kind(alloc: Global, value: &Value, kind: Kind) -> Result<Message, CanonFault>
    requires { get (member_text which_member.Kind) (view value.now) ≡ Some (string (kind_text kind)) }
    ensures message { IfOk result IsMessage }
    ensures reads { IfOk result (λ m. Reads m (view value.now)) }
    ensures fine { OnOk result (None ≡ values_fault (row kind) (view value.now)) }
    ensures fault { IfErr result (λ f. (f ≡ Memory) ⊎ (Some f ≡ values_fault (row kind) (view value.now))) }
{
    match kind {
        Kind::TransferProposal => proposal(value),
        Kind::Reject => reject(value),
        Kind::Recover => recover(value),
        Kind::RecoverUpdate => update(alloc, value),
        Kind::RecoverSuccess => success(value),
        Kind::ProposalReceipt
        | Kind::TransferCommence
        | Kind::CommenceAck
        | Kind::LockAssert
        | Kind::LockReceipt
        | Kind::CommitPrepare
        | Kind::CommitReady
        | Kind::CommitFinal
        | Kind::CommitFinalAck
        | Kind::TransferComplete
        | Kind::Rollback
        | Kind::RollbackAck => plain(value, kind),
    }
}

#[derive(Clone, Copy)]
struct Parties {
    receiver: Name,
    sender: Name,
}

fn parties_at(value: &Value) -> Result<Parties, CanonFault>
    ensures receiver { IfOk result (λ p. get (member_text which_member.Receiver) (view value.now) ≡ Some (string (name_text p.receiver))) }
    ensures sender { IfOk result (λ p. get (member_text which_member.Sender) (view value.now) ≡ Some (string (name_text p.sender))) }
    ensures fault { result_err result
        ≡ values_fault (which_member.Receiver ∷ which_member.Sender ∷ []) (view value.now) }
{
    let receiver = name_at(value, MemberName::Receiver)?;
    let sender = name_at(value, MemberName::Sender)?;
    Ok(Parties { receiver, sender })
}

#[derive(Clone, Copy)]
struct Placed {
    place: u8,
    session: SessionId,
}

fn placed_at(value: &Value) -> Result<Placed, CanonFault>
    ensures place { IfOk result (λ p. get (member_text which_member.Sequence) (view value.now) ≡ Some (number (unsigned p.place))) }
    ensures formed { IfOk result (λ p. IsPlace p.place) }
    ensures session { IfOk result (λ p. get (member_text which_member.Session) (view value.now) ≡ Some (string (session_text p.session))) }
    ensures fault { result_err result
        ≡ values_fault (which_member.Sequence ∷ which_member.Session ∷ []) (view value.now) }
{
    let place = place_at(value)?;
    let session = session_at(value)?;
    Ok(Placed { place, session })
}

/// A chain message that says nothing but its place.
fn plain(value: &Value, kind: Kind) -> Result<Message, CanonFault>
    requires kind { get (member_text which_member.Kind) (view value.now) ≡ Some (string (kind_text kind)) }
    requires plain { IsTrue (is_plain kind) }
    ensures message { IfOk result IsMessage }
    ensures reads { IfOk result (λ m. Reads m (view value.now)) }
    ensures fault { result_err result ≡ values_fault (row kind) (view value.now) }
{
    let previous = link_at(value, MemberName::Previous)?;
    let parties = parties_at(value)?;
    let placed = placed_at(value)?;
    version_at(value)?;
    Ok(chain_message(parties, placed, previous, Part::Plain(kind)))
}

fn proposal(value: &Value) -> Result<Message, CanonFault>
    requires { get (member_text which_member.Kind) (view value.now) ≡ Some (string (kind_text which_kind.TransferProposal)) }
    ensures message { IfOk result IsMessage }
    ensures reads { IfOk result (λ m. Reads m (view value.now)) }
    ensures fault { result_err result ≡ values_fault (row which_kind.TransferProposal) (view value.now) }
{
    let previous = link_at(value, MemberName::Previous)?;
    let parties = parties_at(value)?;
    let placed = placed_at(value)?;
    let terms = terms_at(value)?;
    version_at(value)?;
    Ok(chain_message(parties, placed, previous, Part::Proposal(terms)))
}

fn reject(value: &Value) -> Result<Message, CanonFault>
    requires { get (member_text which_member.Kind) (view value.now) ≡ Some (string (kind_text which_kind.Reject)) }
    ensures message { IfOk result IsMessage }
    ensures reads { IfOk result (λ m. Reads m (view value.now)) }
    ensures fault { result_err result ≡ values_fault (row which_kind.Reject) (view value.now) }
{
    let previous = link_at(value, MemberName::Previous)?;
    let reason = reason_at(value)?;
    let parties = parties_at(value)?;
    let placed = placed_at(value)?;
    version_at(value)?;
    Ok(chain_message(parties, placed, previous, Part::Reject(reason)))
}

/// The length of a chain and the link of its last message.
#[derive(Clone, Copy)]
struct Standing {
    length: u8,
    last: Link,
    parties: Parties,
    session: SessionId,
}

/// What `recover` and `recover-success` say.
fn standing_at(value: &Value) -> Result<Standing, CanonFault>
    ensures last { IfOk result (λ s. get (member_text which_member.Last) (view value.now) ≡ Some (string (link_text s.last))) }
    ensures linked { IfOk result (λ s. IsLink s.last) }
    ensures length { IfOk result (λ s. get (member_text which_member.Length) (view value.now) ≡ Some (number (unsigned s.length))) }
    ensures short { IfOk result (λ s. s.length ≤ 11) }
    ensures receiver { IfOk result (λ s. get (member_text which_member.Receiver) (view value.now) ≡ Some (string (name_text s.parties.receiver))) }
    ensures sender { IfOk result (λ s. get (member_text which_member.Sender) (view value.now) ≡ Some (string (name_text s.parties.sender))) }
    ensures session { IfOk result (λ s. get (member_text which_member.Session) (view value.now) ≡ Some (string (session_text s.session))) }
    ensures version { OnOk result (get (member_text which_member.Version) (view value.now) ≡ Some (number (unsigned 1))) }
    ensures fault { result_err result ≡ values_fault (which_member.Last ∷ which_member.Length ∷ which_member.Receiver
        ∷ which_member.Sender ∷ which_member.Session ∷ which_member.Version ∷ []) (view value.now) }
{
    let last = link_at(value, MemberName::Last)?;
    let length = length_at(value)?;
    let parties = parties_at(value)?;
    let session = session_at(value)?;
    version_at(value)?;
    Ok(Standing {
        length,
        last,
        parties,
        session,
    })
}

/// What `recover-update` says, its entries not yet copied.
#[derive(Clone, Copy)]
struct Heard<'v> {
    entries: &'v Vec<Value>,
    length: u8,
    parties: Parties,
    session: SessionId,
}

fn update_at(value: &Value) -> Result<Heard<'_>, CanonFault>
    requires { get (member_text which_member.Kind) (view value.now) ≡ Some (string (kind_text which_kind.RecoverUpdate)) }
    ensures entries { IfOk result (λ u. get (member_text which_member.Entries) (view value.now) ≡ Some (array (items_view u.entries.now.items))) }
    ensures formed { IfOk result (λ u. IsTrue (are_entries (map view u.entries.now.items))) }
    ensures length { IfOk result (λ u. get (member_text which_member.Length) (view value.now) ≡ Some (number (unsigned u.length))) }
    ensures short { IfOk result (λ u. u.length ≤ 11) }
    ensures receiver { IfOk result (λ u. get (member_text which_member.Receiver) (view value.now) ≡ Some (string (name_text u.parties.receiver))) }
    ensures sender { IfOk result (λ u. get (member_text which_member.Sender) (view value.now) ≡ Some (string (name_text u.parties.sender))) }
    ensures session { IfOk result (λ u. get (member_text which_member.Session) (view value.now) ≡ Some (string (session_text u.session))) }
    ensures version { OnOk result (get (member_text which_member.Version) (view value.now) ≡ Some (number (unsigned 1))) }
    ensures fault { result_err result ≡ values_fault (row which_kind.RecoverUpdate) (view value.now) }
{
    let entries = entries_at(value)?;
    let length = length_at(value)?;
    let parties = parties_at(value)?;
    let session = session_at(value)?;
    version_at(value)?;
    Ok(Heard {
        entries,
        length,
        parties,
        session,
    })
}

fn update(alloc: Global, value: &Value) -> Result<Message, CanonFault>
    requires { get (member_text which_member.Kind) (view value.now) ≡ Some (string (kind_text which_kind.RecoverUpdate)) }
    ensures message { IfOk result IsMessage }
    ensures reads { IfOk result (λ m. Reads m (view value.now)) }
    ensures fine { OnOk result (None ≡ values_fault (row which_kind.RecoverUpdate) (view value.now)) }
    ensures fault { IfErr result (λ f. (f ≡ Memory)
        ⊎ (Some f ≡ values_fault (row which_kind.RecoverUpdate) (view value.now))) }
{
    let update = update_at(value)?;
    match copies(alloc, update.entries) {
        Ok(entries) => Ok(Message {
            session: update.session,
            sender: update.parties.sender,
            receiver: update.parties.receiver,
            body: Body::Update {
                length: update.length,
                entries,
            },
        }),
        Err(_) => Err(CanonFault::Memory),
    }
}

fn recover(value: &Value) -> Result<Message, CanonFault>
    requires { get (member_text which_member.Kind) (view value.now) ≡ Some (string (kind_text which_kind.Recover)) }
    ensures message { IfOk result IsMessage }
    ensures reads { IfOk result (λ m. Reads m (view value.now)) }
    ensures fault { result_err result ≡ values_fault (row which_kind.Recover) (view value.now) }
{
    let standing = standing_at(value)?;
    Ok(Message {
        session: standing.session,
        sender: standing.parties.sender,
        receiver: standing.parties.receiver,
        body: Body::Recover {
            length: standing.length,
            last: standing.last,
        },
    })
}

fn success(value: &Value) -> Result<Message, CanonFault>
    requires { get (member_text which_member.Kind) (view value.now) ≡ Some (string (kind_text which_kind.RecoverSuccess)) }
    ensures message { IfOk result IsMessage }
    ensures reads { IfOk result (λ m. Reads m (view value.now)) }
    ensures fault { result_err result ≡ values_fault (row which_kind.RecoverSuccess) (view value.now) }
{
    let standing = standing_at(value)?;
    Ok(Message {
        session: standing.session,
        sender: standing.parties.sender,
        receiver: standing.parties.receiver,
        body: Body::Success {
            length: standing.length,
            last: standing.last,
        },
    })
}

fn terms_at(value: &Value) -> Result<Terms, CanonFault>
    ensures ok { IfOk result (λ terms. Holds (fields (terms_fields terms)) (get (member_text which_member.Terms) (view value.now))) }
    ensures fault { result_err result ≡ values_fault (which_member.Terms ∷ []) (view value.now) }
{
    match value.get("terms") {
        Some(inner) => {
            if inner.is_object() {
                terms_of(inner)
            } else {
                Err(CanonFault::Value {
                    which: MemberName::Terms,
                })
            }
        }
        None => Err(CanonFault::Value {
            which: MemberName::Terms,
        }),
    }
}

fn terms_of(value: &Value) -> Result<Terms, CanonFault>
    ensures ok { IfOk result (λ terms. AllByRecursion (λ f. get (member_text f.0) (view value.now) ≡ Some (scalar_data f.1)) (terms_fields terms)) }
    ensures fault { result_err result ≡ terms_fault (view value.now) }
{
    match odd_member(value, &TERMS) {
        Some(fault) => Err(fault),
        None => fields_of(value),
    }
}

fn fields_of(value: &Value) -> Result<Terms, CanonFault>
    ensures ok { IfOk result (λ terms. AllByRecursion (λ f. get (member_text f.0) (view value.now) ≡ Some (scalar_data f.1)) (terms_fields terms)) }
    ensures fault { result_err result ≡ first_of (map (form_fault (view value.now)) terms_row) }
{
    let amount = amount_at(value)?;
    let asset = name_at(value, MemberName::Asset)?;
    let beneficiary = name_at(value, MemberName::Beneficiary)?;
    let originator = name_at(value, MemberName::Originator)?;
    Ok(Terms {
        amount,
        asset,
        beneficiary,
        originator,
    })
}

static TERMS: [MemberName; 4] = [
    MemberName::Amount,
    MemberName::Asset,
    MemberName::Beneficiary,
    MemberName::Originator,
];

fn chain_message(parties: Parties, placed: Placed, previous: Link, part: Part) -> Message
    ensures { result ≡ record {
      session = placed.session;
      sender = parties.sender;
      receiver = parties.receiver;
      body = Chain placed.place previous part;
    } }
{
    Message {
        session: placed.session,
        sender: parties.sender,
        receiver: parties.receiver,
        body: Body::Chain {
            place: placed.place,
            previous,
            part,
        },
    }
}
