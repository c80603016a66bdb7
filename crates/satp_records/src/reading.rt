ghost use Rattle.std.specs.Prelude.{◌≡◌, ℕ, ◌≤◌, ◌⊎◌, List, ◌∷◌, [], length, Ok, Err, Some, MatchResult, IfOk, IfErr, IfSome};
ghost use Rattle.satp_base.specs.declared.session.SessionId.{SessionId};
ghost use Rattle.satp_base.specs.declared.record.Rec.{Rec};
ghost use Rattle.satp_records.specs.declared.fault.RecordFault.{RecordFault};
ghost use Rattle.satp_records.specs.declared.stored.Stored.{Stored};
ghost use Rattle.satp_records.specs.Formats.{texts, IsFormed, IsFormedRec, IsRefused, payload_of};
ghost use Rattle.satp_records.specs.Reading.{record_at, whole};
ghost use Rattle.satp_records.specs.Views.{view, session_rec, ReadsAs, UnlessMemory};

use crate::fault::RecordFault;
use crate::field::{
    address_at, amount_at, key_at, kind_at, ledger_at, name_at, operation_at, peer_at, role_at,
    session_at, terms_at, text_at, way_at,
};
use crate::stored::{Setup, Stored};
use satp_base::{Address, Amount, LedgerKind, LedgerOp, Memory, Name, Rec, SessionId, Terms, Text};
use std::alloc::Global;

/// A record whose key or text lies in the payload.
#[derive(Drop)]
pub(crate) enum Found<'a> {
    Setup {
        name: Name,
        peer: Name,
        at: Address,
        key: &'a [u8],
    },
    Session {
        session: SessionId,
        rec: Rec,
        text: &'a [u8],
    },
    Kind(LedgerKind),
    Asset {
        name: Name,
        cap: u64,
    },
    Hold {
        asset: Name,
        owner: Name,
        amount: Amount,
    },
    Act {
        op: LedgerOp,
        session: SessionId,
        terms: Terms,
    },
}

fn setup_at(payload: &[u8]) -> Result<(Found<'_>, usize), RecordFault>
    requires { 1 ≤ length payload.now }
    ensures read { ReadsAs 0x00 payload.now result }
    ensures formed { IfOk result (λ x. IsFormed (view x.0)) }
{
    let (name, next) = name_at(payload, 1)?;
    let (peer, next) = peer_at(payload, next, name)?;
    let (at, next) = address_at(payload, next)?;
    let (key, next) = key_at(payload, next)?;
    Ok((
        Found::Setup {
            name,
            peer,
            at,
            key,
        },
        next,
    ))
}

fn began_at(payload: &[u8]) -> Result<(Found<'_>, usize), RecordFault>
    requires { 1 ≤ length payload.now }
    ensures read { ReadsAs 0x01 payload.now result }
    ensures formed { IfOk result (λ x. IsFormed (view x.0)) }
{
    let (session, next) = session_at(payload, 1)?;
    let (role, next) = role_at(payload, next)?;
    let (terms, next) = terms_at(payload, next)?;
    let (text, next) = text_at(payload, next)?;
    Ok((
        Found::Session {
            session,
            rec: Rec::Began(role, terms),
            text,
        },
        next,
    ))
}

fn took_at(payload: &[u8]) -> Result<(Found<'_>, usize), RecordFault>
    requires { 1 ≤ length payload.now }
    ensures read { ReadsAs 0x02 payload.now result }
    ensures formed { IfOk result (λ x. IsFormed (view x.0)) }
{
    let (session, next) = session_at(payload, 1)?;
    let (kind, next) = kind_at(payload, next)?;
    let (text, next) = text_at(payload, next)?;
    Ok((
        Found::Session {
            session,
            rec: Rec::Took(kind),
            text,
        },
        next,
    ))
}

fn made_at(payload: &[u8]) -> Result<(Found<'_>, usize), RecordFault>
    requires { 1 ≤ length payload.now }
    ensures read { ReadsAs 0x03 payload.now result }
    ensures formed { IfOk result (λ x. IsFormed (view x.0)) }
{
    let (session, next) = session_at(payload, 1)?;
    let (kind, next) = kind_at(payload, next)?;
    let (text, next) = text_at(payload, next)?;
    Ok((
        Found::Session {
            session,
            rec: Rec::Made(kind),
            text,
        },
        next,
    ))
}

fn did_at(payload: &[u8]) -> Result<(Found<'_>, usize), RecordFault>
    requires { 1 ≤ length payload.now }
    ensures read { ReadsAs 0x04 payload.now result }
    ensures formed { IfOk result (λ x. IsFormed (view x.0)) }
{
    let (session, next) = session_at(payload, 1)?;
    let (op, next) = operation_at(payload, next)?;
    Ok((
        Found::Session {
            session,
            rec: Rec::Did(op),
            text: &[],
        },
        next,
    ))
}

fn chose_at(payload: &[u8]) -> Result<(Found<'_>, usize), RecordFault>
    requires { 1 ≤ length payload.now }
    ensures read { ReadsAs 0x05 payload.now result }
    ensures formed { IfOk result (λ x. IsFormed (view x.0)) }
{
    let (session, next) = session_at(payload, 1)?;
    let (way, next) = way_at(payload, next)?;
    Ok((
        Found::Session {
            session,
            rec: Rec::Chose(way),
            text: &[],
        },
        next,
    ))
}

fn rescue_at(payload: &[u8]) -> Result<(Found<'_>, usize), RecordFault>
    requires { 1 ≤ length payload.now }
    ensures read { ReadsAs 0x06 payload.now result }
    ensures formed { IfOk result (λ x. IsFormed (view x.0)) }
{
    let (session, next) = session_at(payload, 1)?;
    Ok((
        Found::Session {
            session,
            rec: Rec::Rescue,
            text: &[],
        },
        next,
    ))
}

fn ledger_kind_at(payload: &[u8]) -> Result<(Found<'_>, usize), RecordFault>
    requires { 1 ≤ length payload.now }
    ensures read { ReadsAs 0x10 payload.now result }
    ensures formed { IfOk result (λ x. IsFormed (view x.0)) }
{
    let (kind, next) = ledger_at(payload, 1)?;
    Ok((Found::Kind(kind), next))
}

fn asset_at(payload: &[u8]) -> Result<(Found<'_>, usize), RecordFault>
    requires { 1 ≤ length payload.now }
    ensures read { ReadsAs 0x11 payload.now result }
    ensures formed { IfOk result (λ x. IsFormed (view x.0)) }
{
    let (name, next) = name_at(payload, 1)?;
    let (cap, next) = amount_at(payload, next)?;
    Ok((
        Found::Asset {
            name,
            cap: cap.get(),
        },
        next,
    ))
}

fn hold_at(payload: &[u8]) -> Result<(Found<'_>, usize), RecordFault>
    requires { 1 ≤ length payload.now }
    ensures read { ReadsAs 0x12 payload.now result }
    ensures formed { IfOk result (λ x. IsFormed (view x.0)) }
{
    let (asset, next) = name_at(payload, 1)?;
    let (owner, next) = name_at(payload, next)?;
    let (amount, next) = amount_at(payload, next)?;
    Ok((
        Found::Hold {
            asset,
            owner,
            amount,
        },
        next,
    ))
}

fn act_at(payload: &[u8]) -> Result<(Found<'_>, usize), RecordFault>
    requires { 1 ≤ length payload.now }
    ensures read { ReadsAs 0x13 payload.now result }
    ensures formed { IfOk result (λ x. IsFormed (view x.0)) }
{
    let (op, next) = operation_at(payload, 1)?;
    let (session, next) = session_at(payload, next)?;
    let (terms, next) = terms_at(payload, next)?;
    Ok((Found::Act { op, session, terms }, next))
}

/// The record at the front, and the place behind it.
fn record_at(payload: &[u8]) -> Result<(Found<'_>, usize), RecordFault>
    ensures read { MatchResult result
        (λ x. (record_at payload.now ≡ Ok (texts (view x.0), x.1)) × (x.1 ≤ length payload.now))
        (λ fault. record_at payload.now ≡ Err fault) }
    ensures formed { IfOk result (λ x. IsFormed (view x.0)) }
{
    let Some(byte) = payload.first() else {
        return Err(RecordFault::Short { at: 0 });
    };
    match *byte {
        0x00 => setup_at(payload),
        0x01 => began_at(payload),
        0x02 => took_at(payload),
        0x03 => made_at(payload),
        0x04 => did_at(payload),
        0x05 => chose_at(payload),
        0x06 => rescue_at(payload),
        0x10 => ledger_kind_at(payload),
        0x11 => asset_at(payload),
        0x12 => hold_at(payload),
        0x13 => act_at(payload),
        byte => Err(RecordFault::Kind { byte }),
    }
}

/// The record that the whole payload is.
pub(crate) fn whole(payload: &[u8]) -> Result<Found<'_>, RecordFault>
    ensures read { MatchResult result
        (λ x. whole payload.now ≡ Ok (texts (view x)))
        (λ fault. whole payload.now ≡ Err fault) }
    ensures formed { IfOk result (λ x. IsFormed (view x)) }
{
    let (found, next) = record_at(payload)?;
    if next < payload.len() {
        return Err(RecordFault::Extra { at: next });
    }
    Ok(found)
}

fn copied(alloc: Global, bytes: &[u8]) -> Result<Text, RecordFault>
    ensures { MatchResult result (λ text. text ≡ bytes.now) (λ fault. fault ≡ RecordFault.Memory) }
{
    match Text::copy(alloc, bytes) {
        Ok(text) => Ok(text),
        Err(Memory) => Err(RecordFault::Memory),
    }
}

/// The record with a key or text of its own.
fn owned(alloc: Global, found: Found<'_>) -> Result<Stored, RecordFault>
    ensures { MatchResult result (λ stored. stored ≡ view found.entry) (λ fault. fault ≡ RecordFault.Memory) }
{
    match found {
        Found::Setup {
            name,
            peer,
            at,
            key,
        } => Ok(Stored::Setup(Setup {
            name,
            peer,
            at,
            key: copied(alloc, key)?,
        })),
        Found::Session { session, rec, text } => Ok(Stored::Session {
            session,
            rec,
            text: copied(alloc, text)?,
        }),
        Found::Kind(kind) => Ok(Stored::Kind(kind)),
        Found::Asset { name, cap } => Ok(Stored::Asset { name, cap }),
        Found::Hold {
            asset,
            owner,
            amount,
        } => Ok(Stored::Hold {
            asset,
            owner,
            amount,
        }),
        Found::Act { op, session, terms } => Ok(Stored::Act { op, session, terms }),
    }
}

/// Reads the record that a payload is, all of its bytes.
///
/// The fault is the first from the front. `Memory` may come in place of any answer but those faults.
pub fn decode(alloc: Global, payload: &[u8]) -> Result<Stored, RecordFault>
    // What is read is a record that can be stored, and the payload is its own.
    ensures found { IfOk result (λ stored. IsFormed stored × (payload.now ≡ payload_of stored)) }
    // The payload of a record that can be stored is read as that record, unless memory runs out.
    ensures only { (stored : Stored) → IsFormed stored → payload.now ≡ payload_of stored → UnlessMemory result (Ok stored) }
    // Which fault it is.
    ensures fault { IfErr result (λ fault. (fault ≡ RecordFault.Memory) ⊎ IsRefused payload.now fault) }
    ensures refused { (fault : RecordFault) → IsRefused payload.now fault → result ≡ Err fault }
{
    match whole(payload) {
        Ok(found) => owned(alloc, found),
        Err(fault) => Err(fault),
    }
}

/// The session and its record, if it is one.
fn session_in(found: Found<'_>) -> Option<(SessionId, Rec)>
    ensures { result ≡ session_rec (view found.entry) }
{
    match found {
        Found::Session { session, rec, .. } => Some((session, rec)),
        _ => None,
    }
}

/// The session and the record that a payload holds, without the record's text; `None` exactly where the
/// payload isn't that of a session's record.
pub fn rec_of(payload: &[u8]) -> Option<(SessionId, Rec)>
    ensures found { IfSome result (λ x. (text : List ℕ) × IsFormedRec x.1 text × (payload.now ≡ payload_of (Stored.Session x.0 x.1 text))) }
    ensures only { (session : SessionId) (rec : Rec) (text : List ℕ) → IsFormedRec rec text → payload.now ≡ payload_of (Stored.Session session rec text) → result ≡ Some (session, rec) }
{
    match whole(payload) {
        Ok(found) => session_in(found),
        Err(_) => None,
    }
}
