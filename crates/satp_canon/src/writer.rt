//! Writes the canonical text of a message, member by member.

ghost use Rattle.std.specs.Prelude.{◌≡◌, ◌<◌, ◌++◌, ◌∷◌, [], length, slice_index_or, map, decimal, IfOk, OnOk};
ghost use Rattle.satp_canon.specs.Commas.{comma_at};
ghost use Rattle.std.specs.List.{join_with_byte};
ghost use Rattle.satp_base.specs.Canonical.{IsText, array, body_value, fields, kind_of, member, member_text, message_member, object, part_value, row, string, terms_fields, value, value_text};
ghost use Rattle.satp_base.specs.Forms.{IsFormed};
ghost use Rattle.satp_base.specs.Values.{name_text, session_text};

use crate::link::link_text;
use crate::row::row;
use itoa::Buffer;
use satp_base::{Body, MemberName, Memory, Message, Name, Part, SessionId, Terms, Text, Texts};
use std::alloc::Global;

/// The canonical text of a message: a JSON object (RFC 8259) without spaces, its members in byte order.
pub fn write(alloc: Global, message: &Message) -> Result<Text, Memory>
    requires { IsFormed message.now }
    ensures { IfOk result (λ text. IsText message.now text) }
{
    let mut text = Text::copy(alloc, b"{")?;
    members(&mut text, message)?;
    text.append(b"}")?;
    Ok(text)
}

fn members(out: &mut Text, message: &Message) -> Result<(), Memory>
    ensures { OnOk result (out.new ≡ out.old
        ++ join_with_byte 44 (map (λ name. member (message_member message.now name)) (row (kind_of message.now.body)))) }
{
    for (index, name) in row(message.body.kind()).iter().enumerate() {
        member_of(out, message, *name, index)?;
    }
    Ok(())
}

fn member_of(
    out: &mut Text,
    message: &Message,
    name: MemberName,
    index: usize,
) -> Result<(), Memory>
    ensures { OnOk result (out.new ≡ out.old
        ++ (comma_at index ++ member (message_member message.now name))) }
{
    comma(out, index)?;
    name_of(out, name)?;
    value_of(out, message, name)
}

/// A comma before every piece but the first.
fn comma(out: &mut Text, index: usize) -> Result<(), Memory>
    ensures { OnOk result (out.new ≡ out.old ++ comma_at index) }
{
    if index == 0 { Ok(()) } else { out.append(b",") }
}

/// A member's name, quoted, and the colon behind it.
fn name_of(out: &mut Text, name: MemberName) -> Result<(), Memory>
    ensures { OnOk result (out.new ≡ out.old ++ (string (member_text name) ++ 58 ∷ [])) }
{
    quoted(out, name.text().as_bytes())?;
    out.append(b":")
}

fn quoted(out: &mut Text, word: &[u8]) -> Result<(), Memory>
    ensures { OnOk result (out.new ≡ out.old ++ string word.now) }
{
    out.append(b"\"")?;
    out.append(word)?;
    out.append(b"\"")
}

fn number(out: &mut Text, number: u64) -> Result<(), Memory>
    ensures { OnOk result (out.new ≡ out.old ++ decimal number) }
{
    let mut buffer = Buffer::new();
    out.append(buffer.format(number).as_bytes())
}

fn session(out: &mut Text, session: SessionId) -> Result<(), Memory>
    ensures { OnOk result (out.new ≡ out.old ++ string (session_text session)) }
{
    let mut buffer = Buffer::new();
    out.append(b"\"")?;
    out.append(session.gateway.bytes())?;
    out.append(b".")?;
    out.append(buffer.format(session.number).as_bytes())?;
    out.append(b"\"")
}

/// The value of a member.
fn value_of(out: &mut Text, message: &Message, name: MemberName) -> Result<(), Memory>
    ensures { OnOk result (out.new ≡ out.old ++ value_text (value message.now name)) }
{
    match name {
        MemberName::Kind => quoted(out, message.body.kind().text().as_bytes()),
        MemberName::Receiver => quoted(out, message.receiver.bytes()),
        MemberName::Sender => quoted(out, message.sender.bytes()),
        MemberName::Session => session(out, message.session),
        MemberName::Version => number(out, 1),
        name => body_value(out, &message.body, name),
    }
}

/// The value of a member that the body has; a kind without it has the empty word.
fn body_value(out: &mut Text, body: &Body, name: MemberName) -> Result<(), Memory>
    ensures { OnOk result (out.new ≡ out.old ++ value_text (body_value body.now name)) }
{
    match (body, name) {
        (Body::Chain { previous, .. }, MemberName::Previous) => quoted(out, &link_text(previous)),
        (Body::Chain { place, .. }, MemberName::Sequence) => number(out, u64::from(*place)),
        (Body::Chain { part, .. }, name) => part_value(out, part, name),
        (Body::Recover { last, .. } | Body::Success { last, .. }, MemberName::Last) => {
            quoted(out, &link_text(last))
        }
        (
            Body::Recover { length, .. }
            | Body::Update { length, .. }
            | Body::Success { length, .. },
            MemberName::Length,
        ) => number(out, u64::from(*length)),
        (Body::Update { entries, .. }, MemberName::Entries) => words(out, entries),
        _ => quoted(out, b""),
    }
}

fn part_value(out: &mut Text, part: &Part, name: MemberName) -> Result<(), Memory>
    ensures { OnOk result (out.new ≡ out.old ++ value_text (part_value part.now name)) }
{
    match (part, name) {
        (Part::Proposal(terms), MemberName::Terms) => terms_value(out, terms),
        (Part::Reject(reason), MemberName::Reason) => quoted(out, reason.text().as_bytes()),
        _ => quoted(out, b""),
    }
}

fn terms_value(out: &mut Text, terms: &Terms) -> Result<(), Memory>
    ensures { OnOk result (out.new ≡ out.old ++ value_text (fields (terms_fields terms.now))) }
{
    out.append(b"{")?;
    name_of(out, MemberName::Amount)?;
    number(out, terms.amount.get())?;
    field(out, MemberName::Asset, terms.asset)?;
    field(out, MemberName::Beneficiary, terms.beneficiary)?;
    field(out, MemberName::Originator, terms.originator)?;
    out.append(b"}")
}

/// A further field that holds a name.
fn field(out: &mut Text, field: MemberName, name: Name) -> Result<(), Memory>
    ensures { OnOk result (out.new ≡ out.old ++ 44 ∷ member (member_text field, string (name_text name))) }
{
    out.append(b",")?;
    name_of(out, field)?;
    quoted(out, name.bytes())
}

fn words(out: &mut Text, words: &Texts) -> Result<(), Memory>
    ensures { OnOk result (out.new ≡ out.old ++ array (map string words.now)) }
{
    out.append(b"[")?;
    words_joined(out, words)?;
    out.append(b"]")
}

fn words_joined(out: &mut Text, words: &Texts) -> Result<(), Memory>
    ensures { OnOk result (out.new ≡ out.old ++ join_with_byte 44 (map string words.now)) }
{
    for index in 0..words.length() {
        word_at(out, words, index)?;
    }
    Ok(())
}

fn word_at(out: &mut Text, words: &Texts, index: usize) -> Result<(), Memory>
    requires { index < length words.now }
    ensures { OnOk result (out.new ≡ out.old
        ++ (comma_at index ++ string (slice_index_or words.now index []))) }
{
    match words.get(index) {
        Some(word) => {
            comma(out, index)?;
            quoted(out, word.bytes())
        }
        None => Ok(()),
    }
}
