//! Writers of fields, each behind what is there, and of whole payloads.

ghost use Rattle.std.specs.Prelude.{◌≡◌, ℕ, ◌≤◌, ◌∷◌, ◌++◌, [], length, IfOk, OnOk};
ghost use Rattle.std.specs.Int.{w32, w64, to_be_bytes};
ghost use Rattle.satp_base.specs.Values.{name_text, address_text};
ghost use Rattle.satp_base.specs.declared.record.Rec.TheVariants as rec;
ghost use Rattle.satp_records.specs.Shapes.{spell};
ghost use Rattle.satp_records.specs.Formats.{spell_all, session_texts, terms_texts, IsFormed, IsFormedRec, IsMessageText, payload_of, kind_byte};
ghost use Rattle.satp_records.specs.Formats as format;
ghost use Rattle.satp_records.specs.declared.stored.Stored.TheVariants as stored;

use crate::code::{kind_byte, ledger_byte, operation_byte, role_byte, way_byte};
use crate::stored::{Setup, Stored};
use satp_base::{Amount, Kind, LedgerOp, Memory, Name, Rec, Role, SessionId, Terms, Text};
use std::alloc::Global;

fn put_name(out: &mut Text, name: &Name) -> Result<(), Memory>
    ensures { OnOk result (out.new ≡ out.old ++ spell format.name_shape (name_text name.now)) }
{
    let bytes = name.bytes();
    out.append(&[bytes.len() as u8])?;
    out.append(bytes)
}

fn put_message(out: &mut Text, message: &[u8]) -> Result<(), Memory>
    requires { IsMessageText message.now }
    ensures { OnOk result (out.new ≡ out.old ++ spell format.text_shape message.now) }
{
    out.append(&(message.len() as u16).to_be_bytes())?;
    out.append(message)
}

fn put_session(out: &mut Text, session: &SessionId) -> Result<(), Memory>
    ensures { OnOk result (out.new ≡ out.old ++ spell_all format.session (session_texts session.now)) }
{
    put_name(out, &session.gateway)?;
    out.append(&session.number.to_be_bytes())
}

fn put_terms(out: &mut Text, terms: &Terms) -> Result<(), Memory>
    ensures { OnOk result (out.new ≡ out.old ++ spell_all format.terms (terms_texts terms.now)) }
{
    out.append(&terms.amount.get().to_be_bytes())?;
    put_name(out, &terms.asset)?;
    put_name(out, &terms.beneficiary)?;
    put_name(out, &terms.originator)
}

fn encode_setup(alloc: Global, setup: &Setup) -> Result<Text, Memory>
    requires { IsFormed (stored.Setup setup.now) }
    ensures { IfOk result (λ out. out ≡ payload_of (stored.Setup setup.now)) }
{
    let mut out = Text::copy(alloc, &[0x00])?;
    put_name(&mut out, &setup.name)?;
    put_name(&mut out, &setup.peer)?;
    let at = setup.at.bytes();
    out.append(&[at.len() as u8])?;
    out.append(at)?;
    let key = setup.key.bytes();
    out.append(&[key.len() as u8])?;
    out.append(key)?;
    Ok(out)
}

fn encode_message(
    alloc: Global,
    tag: u8,
    session: &SessionId,
    kind: Kind,
    message: &[u8],
) -> Result<Text, Memory>
    requires { IsMessageText message.now }
    ensures { IfOk result (λ out. out ≡ tag ∷ spell_all format.message_fields (session_texts session.now ++ (format.code (kind_byte kind) ++ message.now ∷ []))) }
{
    let mut out = Text::copy(alloc, &[tag])?;
    put_session(&mut out, session)?;
    out.append(&[kind_byte(kind)])?;
    put_message(&mut out, message)?;
    Ok(out)
}

fn encode_began(
    alloc: Global,
    session: &SessionId,
    role: Role,
    terms: &Terms,
    message: &[u8],
) -> Result<Text, Memory>
    requires { IsMessageText message.now }
    ensures { IfOk result (λ out. out ≡ payload_of (stored.Session session.now (rec.Began role terms.now) message.now)) }
{
    let mut out = Text::copy(alloc, &[0x01])?;
    put_session(&mut out, session)?;
    out.append(&[role_byte(role)])?;
    put_terms(&mut out, terms)?;
    put_message(&mut out, message)?;
    Ok(out)
}

fn encode_step(alloc: Global, tag: u8, session: &SessionId, code: &[u8]) -> Result<Text, Memory>
    ensures { IfOk result (λ out. out ≡ tag ∷ (spell_all format.session (session_texts session.now) ++ code.now)) }
{
    let mut out = Text::copy(alloc, &[tag])?;
    put_session(&mut out, session)?;
    out.append(code)?;
    Ok(out)
}

fn encode_session(
    alloc: Global,
    session: &SessionId,
    rec: Rec,
    message: &[u8],
) -> Result<Text, Memory>
    requires { IsFormedRec rec message.now }
    ensures { IfOk result (λ out. out ≡ payload_of (stored.Session session.now rec message.now)) }
{
    match rec {
        Rec::Began(role, terms) => encode_began(alloc, session, role, &terms, message),
        Rec::Took(kind) => encode_message(alloc, 0x02, session, kind, message),
        Rec::Made(kind) => encode_message(alloc, 0x03, session, kind, message),
        Rec::Did(op) => encode_step(alloc, 0x04, session, &[operation_byte(op)]),
        Rec::Chose(way) => encode_step(alloc, 0x05, session, &[way_byte(way)]),
        Rec::Rescue => encode_step(alloc, 0x06, session, &[]),
    }
}

fn encode_asset(alloc: Global, name: &Name, cap: u64) -> Result<Text, Memory>
    ensures { IfOk result (λ out. out ≡ payload_of (stored.Asset name.now cap)) }
{
    let mut out = Text::copy(alloc, &[0x11])?;
    put_name(&mut out, name)?;
    out.append(&cap.to_be_bytes())?;
    Ok(out)
}

fn encode_hold(alloc: Global, asset: &Name, owner: &Name, amount: Amount) -> Result<Text, Memory>
    ensures { IfOk result (λ out. out ≡ payload_of (stored.Hold asset.now owner.now amount)) }
{
    let mut out = Text::copy(alloc, &[0x12])?;
    put_name(&mut out, asset)?;
    put_name(&mut out, owner)?;
    out.append(&amount.get().to_be_bytes())?;
    Ok(out)
}

fn encode_act(
    alloc: Global,
    op: LedgerOp,
    session: &SessionId,
    terms: &Terms,
) -> Result<Text, Memory>
    ensures { IfOk result (λ out. out ≡ payload_of (stored.Act op session.now terms.now)) }
{
    let mut out = Text::copy(alloc, &[0x13, operation_byte(op)])?;
    put_session(&mut out, session)?;
    put_terms(&mut out, terms)?;
    Ok(out)
}

/// The payload of a record that can be stored: 1 to 4,096 bytes. It fails for want of memory alone.
pub fn encode(alloc: Global, stored: &Stored) -> Result<Text, Memory>
    requires { IsFormed stored.now }
    ensures { IfOk result (λ out. out ≡ payload_of stored.now) }
{
    match stored {
        Stored::Setup(setup) => encode_setup(alloc, setup),
        Stored::Session { session, rec, text } => encode_session(
            alloc,
            session,
            *rec,
            text.bytes(),
        ),
        Stored::Kind(kind) => Text::copy(alloc, &[0x10, ledger_byte(*kind)]),
        Stored::Asset { name, cap } => encode_asset(alloc, name, *cap),
        Stored::Hold {
            asset,
            owner,
            amount,
        } => encode_hold(alloc, asset, owner, *amount),
        Stored::Act { op, session, terms } => encode_act(alloc, *op, session, terms),
    }
}
