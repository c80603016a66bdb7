//! Readers of fields. Each reads the field that begins at a place of a payload, and gives its value and the place behind it.

ghost use Rattle.std.specs.Prelude.{◌≡◌, ◌≢◌, ◌≤◌, ◌+◌, ◌∷◌, [], ◌^◌, ◌<◌, length, Ok, Err, MatchResult, IfOk, IsTrue};
ghost use Rattle.satp_base.specs.Numbers.{greatest_amount};
ghost use Rattle.satp_base.specs.Values.{name_text, address_text};
ghost use Rattle.satp_records.specs.Shapes.{Shape, fixed, one, two};
ghost use Rattle.satp_records.specs.Reading.{bytes_at, part_at, field_at, fields_at};
ghost use Rattle.satp_records.specs.Formats.{session_texts, terms_texts};
ghost use Rattle.std.specs.Int.{w32, w64, to_be_bytes};
ghost use Rattle.satp_records.specs.Formats as format;

use crate::code::{kind_of, ledger_of, operation_of, role_of, way_of};
use crate::fault::RecordFault;
use satp_base::{Address, Amount, Kind, LedgerKind, LedgerOp, Name, Role, SessionId, Terms, Way};

/// The next `count` bytes.
fn bytes_at(payload: &[u8], at: usize, count: usize) -> Result<(&[u8], usize), RecordFault>
    requires count { count ≤ 65535 }
    requires at { at ≤ length payload.now }
    ensures read { MatchResult result
        (λ x. bytes_at payload.now at count ≡ Ok (x.0.now, x.1))
        (λ fault. bytes_at payload.now at count ≡ Err fault) }
    ensures within { IfOk result (λ x. (x.1 ≤ length payload.now) × (x.1 ≡ at + count)) }
    ensures long { IfOk result (λ x. length x.0.now ≡ count) }
{
    if payload.len() - at < count {
        return Err(RecordFault::Short { at: payload.len() });
    }
    Ok((&payload[at..at + count], at + count))
}

/// The bytes of a field that has one byte of length before them, from `low` to `high`.
#[tactic(auto, unfolding(crate::specs::Reading::part_at))]
fn counted_at(
    payload: &[u8],
    at: usize,
    low: usize,
    high: usize,
) -> Result<(&[u8], usize), RecordFault>
    requires { at ≤ length payload.now }
    ensures read { MatchResult result
        (λ x. part_at one low high payload.now at ≡ Ok (x.0.now, x.1))
        (λ fault. part_at one low high payload.now at ≡ Err fault) }
    ensures within { IfOk result (λ x. x.1 ≤ length payload.now) }
    ensures long { IfOk result (λ x. (low ≤ length x.0.now) × (length x.0.now ≤ high)) }
{
    if at == payload.len() {
        return Err(RecordFault::Short { at: payload.len() });
    }
    let count = payload[at] as usize;
    if count < low || count > high {
        return Err(RecordFault::Value { at });
    }
    bytes_at(payload, at + 1, count)
}

/// A name.
pub(crate) fn name_at(payload: &[u8], at: usize) -> Result<(Name, usize), RecordFault>
    requires { at ≤ length payload.now }
    ensures read { MatchResult result
        (λ x. fields_at format.name [] payload.now at ≡ Ok (name_text x.0 ∷ [], x.1))
        (λ fault. fields_at format.name [] payload.now at ≡ Err fault) }
    ensures within { IfOk result (λ x. x.1 ≤ length payload.now) }
{
    let (bytes, next) = counted_at(payload, at, 1, 32)?;
    match Name::read(bytes) {
        Ok(name) => Ok((name, next)),
        Err(_) => Err(RecordFault::Value { at }),
    }
}

/// A name other than `own`, that of the field before.
pub(crate) fn peer_at(payload: &[u8], at: usize, own: Name) -> Result<(Name, usize), RecordFault>
    requires { at ≤ length payload.now }
    ensures read { MatchResult result
        (λ x. fields_at format.peer (name_text own ∷ []) payload.now at ≡ Ok (name_text x.0 ∷ [], x.1))
        (λ fault. fields_at format.peer (name_text own ∷ []) payload.now at ≡ Err fault) }
    ensures within { IfOk result (λ x. x.1 ≤ length payload.now) }
    ensures other { IfOk result (λ x. own ≢ x.0) }
{
    let (bytes, next) = counted_at(payload, at, 1, 32)?;
    if bytes == own.bytes() {
        return Err(RecordFault::Value { at });
    }
    match Name::read(bytes) {
        Ok(name) => Ok((name, next)),
        Err(_) => Err(RecordFault::Value { at }),
    }
}

/// An address.
pub(crate) fn address_at(payload: &[u8], at: usize) -> Result<(Address, usize), RecordFault>
    requires { at ≤ length payload.now }
    ensures read { MatchResult result
        (λ x. fields_at format.address [] payload.now at ≡ Ok (address_text x.0 ∷ [], x.1))
        (λ fault. fields_at format.address [] payload.now at ≡ Err fault) }
    ensures within { IfOk result (λ x. x.1 ≤ length payload.now) }
{
    let (bytes, next) = counted_at(payload, at, 1, 64)?;
    match Address::read(bytes) {
        Ok(address) => Ok((address, next)),
        Err(_) => Err(RecordFault::Value { at }),
    }
}

/// A key: 32 to 64 bytes.
pub(crate) fn key_at(payload: &[u8], at: usize) -> Result<(&[u8], usize), RecordFault>
    requires { at ≤ length payload.now }
    ensures read { MatchResult result
        (λ x. fields_at format.key [] payload.now at ≡ Ok (x.0.now ∷ [], x.1))
        (λ fault. fields_at format.key [] payload.now at ≡ Err fault) }
    ensures within { IfOk result (λ x. x.1 ≤ length payload.now) }
    ensures long { IfOk result (λ x. (32 ≤ length x.0.now) × (length x.0.now ≤ 64)) }
{
    counted_at(payload, at, 32, 64)
}

/// A text: 1 to 2,048 bytes.
#[tactic(auto, unfolding(crate::specs::Reading::part_at))]
pub(crate) fn text_at(payload: &[u8], at: usize) -> Result<(&[u8], usize), RecordFault>
    requires { at ≤ length payload.now }
    ensures read { MatchResult result
        (λ x. fields_at format.text [] payload.now at ≡ Ok (x.0.now ∷ [], x.1))
        (λ fault. fields_at format.text [] payload.now at ≡ Err fault) }
    ensures within { IfOk result (λ x. x.1 ≤ length payload.now) }
    ensures long { IfOk result (λ x. (1 ≤ length x.0.now) × (length x.0.now ≤ 2048)) }
{
    if payload.len() - at < 2 {
        return Err(RecordFault::Short { at: payload.len() });
    }
    let count = u16::from_be_bytes([payload[at], payload[at + 1]]) as usize;
    if count < 1 || count > 2048 {
        return Err(RecordFault::Value { at });
    }
    bytes_at(payload, at + 2, count)
}

/// A session's number.
#[tactic(auto, unfolding(crate::specs::Reading::part_at))]
fn number_at(payload: &[u8], at: usize) -> Result<(u32, usize), RecordFault>
    requires { at ≤ length payload.now }
    ensures read { MatchResult result
        (λ x. field_at format.number_shape [] payload.now at ≡ Ok (to_be_bytes w32 x.0, x.1))
        (λ fault. field_at format.number_shape [] payload.now at ≡ Err fault) }
    ensures within { IfOk result (λ x. x.1 ≤ length payload.now) }
    ensures low { IfOk result (λ x. 1 ≤ x.0) }
{
    let (bytes, next) = bytes_at(payload, at, 4)?;
    let number = u32::from_be_bytes([bytes[0], bytes[1], bytes[2], bytes[3]]);
    if number == 0 {
        return Err(RecordFault::Value { at });
    }
    Ok((number, next))
}

/// So many units, in the range of an amount.
#[tactic(auto, unfolding(crate::specs::Reading::part_at))]
fn units_at(payload: &[u8], at: usize) -> Result<(u64, usize), RecordFault>
    requires { at ≤ length payload.now }
    ensures read { MatchResult result
        (λ x. field_at format.amount_shape [] payload.now at ≡ Ok (to_be_bytes w64 x.0, x.1))
        (λ fault. field_at format.amount_shape [] payload.now at ≡ Err fault) }
    ensures within { IfOk result (λ x. x.1 ≤ length payload.now) }
    ensures range { IfOk result (λ x. (1 ≤ x.0) × (x.0 ≤ greatest_amount)) }
{
    let (bytes, next) = bytes_at(payload, at, 8)?;
    let number = u64::from_be_bytes([
        bytes[0], bytes[1], bytes[2], bytes[3], bytes[4], bytes[5], bytes[6], bytes[7],
    ]);
    if number < 1 || number > Amount::MAX {
        return Err(RecordFault::Value { at });
    }
    Ok((number, next))
}

/// An amount.
pub(crate) fn amount_at(payload: &[u8], at: usize) -> Result<(Amount, usize), RecordFault>
    requires { at ≤ length payload.now }
    ensures read { MatchResult result
        (λ x. fields_at format.amount [] payload.now at ≡ Ok (to_be_bytes w64 x.0.number ∷ [], x.1))
        (λ fault. fields_at format.amount [] payload.now at ≡ Err fault) }
    ensures within { IfOk result (λ x. x.1 ≤ length payload.now) }
{
    let (number, next) = units_at(payload, at)?;
    match Amount::from(number) {
        Some(amount) => Ok((amount, next)),
        None => unreachable!(),
    }
}

/// A byte from `first` to `last`.
#[tactic(auto, unfolding(crate::specs::Reading::part_at))]
fn code_at(payload: &[u8], at: usize, first: u8, last: u8) -> Result<(u8, usize), RecordFault>
    requires { at ≤ length payload.now }
    ensures read { MatchResult result
        (λ x. field_at (format.code_shape first last) [] payload.now at ≡ Ok (x.0 ∷ [], x.1))
        (λ fault. field_at (format.code_shape first last) [] payload.now at ≡ Err fault) }
    ensures within { IfOk result (λ x. x.1 ≤ length payload.now) }
    ensures range { IfOk result (λ x. (first ≤ x.0) × (x.0 ≤ last)) }
{
    if at == payload.len() {
        return Err(RecordFault::Short { at: payload.len() });
    }
    let byte = payload[at];
    if byte < first || byte > last {
        return Err(RecordFault::Value { at });
    }
    Ok((byte, at + 1))
}

/// A session.
pub(crate) fn session_at(payload: &[u8], at: usize) -> Result<(SessionId, usize), RecordFault>
    requires { at ≤ length payload.now }
    ensures read { MatchResult result
        (λ x. fields_at format.session [] payload.now at ≡ Ok (session_texts x.0, x.1))
        (λ fault. fields_at format.session [] payload.now at ≡ Err fault) }
    ensures within { IfOk result (λ x. x.1 ≤ length payload.now) }
{
    let (gateway, at) = name_at(payload, at)?;
    let (number, at) = number_at(payload, at)?;
    Ok((SessionId { gateway, number }, at))
}

/// The terms of a session.
pub(crate) fn terms_at(payload: &[u8], at: usize) -> Result<(Terms, usize), RecordFault>
    requires { at ≤ length payload.now }
    ensures read { MatchResult result
        (λ x. fields_at format.terms [] payload.now at ≡ Ok (terms_texts x.0, x.1))
        (λ fault. fields_at format.terms [] payload.now at ≡ Err fault) }
    ensures within { IfOk result (λ x. x.1 ≤ length payload.now) }
{
    let (amount, at) = amount_at(payload, at)?;
    let (asset, at) = name_at(payload, at)?;
    let (beneficiary, at) = name_at(payload, at)?;
    let (originator, at) = name_at(payload, at)?;
    Ok((
        Terms {
            amount,
            asset,
            beneficiary,
            originator,
        },
        at,
    ))
}

/// A role.
pub(crate) fn role_at(payload: &[u8], at: usize) -> Result<(Role, usize), RecordFault>
    requires { at ≤ length payload.now }
    ensures read { MatchResult result
        (λ x. fields_at format.role [] payload.now at ≡ Ok (format.code (format.role_byte x.0), x.1))
        (λ fault. fields_at format.role [] payload.now at ≡ Err fault) }
    ensures within { IfOk result (λ x. x.1 ≤ length payload.now) }
{
    let (byte, next) = code_at(payload, at, 0, 1)?;
    Ok((role_of(byte), next))
}

/// A kind of the chain other than that of a proposal.
pub(crate) fn kind_at(payload: &[u8], at: usize) -> Result<(Kind, usize), RecordFault>
    requires { at ≤ length payload.now }
    ensures read { MatchResult result
        (λ x. fields_at format.kind [] payload.now at ≡ Ok (format.code (format.kind_byte x.0), x.1))
        (λ fault. fields_at format.kind [] payload.now at ≡ Err fault) }
    ensures within { IfOk result (λ x. x.1 ≤ length payload.now) }
    ensures answer { IfOk result (λ x. IsTrue (format.is_answer x.0)) }
{
    let (byte, next) = code_at(payload, at, 2, 14)?;
    Ok((kind_of(byte), next))
}

/// An operation on a ledger.
pub(crate) fn operation_at(payload: &[u8], at: usize) -> Result<(LedgerOp, usize), RecordFault>
    requires { at ≤ length payload.now }
    ensures read { MatchResult result
        (λ x. fields_at format.operation [] payload.now at ≡ Ok (format.code (format.operation_byte x.0), x.1))
        (λ fault. fields_at format.operation [] payload.now at ≡ Err fault) }
    ensures within { IfOk result (λ x. x.1 ≤ length payload.now) }
{
    let (byte, next) = code_at(payload, at, 1, 5)?;
    Ok((operation_of(byte), next))
}

/// A decision.
pub(crate) fn way_at(payload: &[u8], at: usize) -> Result<(Way, usize), RecordFault>
    requires { at ≤ length payload.now }
    ensures read { MatchResult result
        (λ x. fields_at format.way [] payload.now at ≡ Ok (format.code (format.way_byte x.0), x.1))
        (λ fault. fields_at format.way [] payload.now at ≡ Err fault) }
    ensures within { IfOk result (λ x. x.1 ≤ length payload.now) }
{
    let (byte, next) = code_at(payload, at, 1, 8)?;
    Ok((way_of(byte), next))
}

/// A kind of ledger.
pub(crate) fn ledger_at(payload: &[u8], at: usize) -> Result<(LedgerKind, usize), RecordFault>
    requires { at ≤ length payload.now }
    ensures read { MatchResult result
        (λ x. fields_at format.ledger [] payload.now at ≡ Ok (format.code (format.ledger_byte x.0), x.1))
        (λ fault. fields_at format.ledger [] payload.now at ≡ Err fault) }
    ensures within { IfOk result (λ x. x.1 ≤ length payload.now) }
{
    let (byte, next) = code_at(payload, at, 1, 2)?;
    Ok((ledger_of(byte), next))
}
