//! The values of members, each with its type and form.

ghost use Rattle.std.specs.Prelude.{◌≡◌, ◌≤◌, Some, option_map, is_none, is_some, IfOk, OnOk};
ghost use Rattle.satp_base.specs.declared.member.MemberName.TheVariants as which_member;
ghost use Rattle.std.specs.Result.{result_err};
ghost use Rattle.serde_json.specs.Data.{number, unsigned, string};
ghost use Rattle.serde_json.specs.Find.{get};
ghost use Rattle.serde_json.specs.View.{view};
ghost use Rattle.satp_base.specs.Canonical.{link_text, member_text, reason_named, reason_text};
ghost use Rattle.satp_base.specs.Faults.{session_fault};
ghost use Rattle.satp_base.specs.Forms.{IsLink, IsPlace};
ghost use Rattle.satp_base.specs.Names.{is_name};
ghost use Rattle.satp_base.specs.Numbers.{greatest_amount};
ghost use Rattle.satp_base.specs.Values.{name_text, session_text};
ghost use Rattle.satp_canon.specs.FirstFault.{fault_unless, holds_number, holds_text, is_link, is_within, number_in, text_in};

use crate::fault::CanonFault;
use crate::link::link_read;
use crate::names::reason_named;
use satp_base::{Amount, Link, MemberName, Name, Reason, SessionId};
use serde_json::Value;

fn text_at<'v>(value: &'v Value, which: MemberName) -> Option<&'v [u8]>
    ensures { option_map (λ text. text.now) result
        ≡ text_in (get (member_text which) (view value.now)) }
{
    Some(value.get(which.text())?.as_str()?.as_bytes())
}

fn number_at(value: &Value, which: MemberName) -> Option<u64>
    ensures { result ≡ number_in (get (member_text which) (view value.now)) }
{
    value.get(which.text()).and_then(Value::as_u64)
}

/// A whole number of this range.
fn number_within(value: &Value, which: MemberName, low: u64, high: u64) -> Result<u64, CanonFault>
    ensures ok { IfOk result (λ n. get (member_text which) (view value.now) ≡ Some (number (unsigned n))) }
    ensures low { IfOk result (λ n. low ≤ n) }
    ensures high { IfOk result (λ n. n ≤ high) }
    ensures fault { result_err result
        ≡ fault_unless (holds_number (is_within low high) (get (member_text which) (view value.now))) which }
{
    match number_at(value, which) {
        Some(number) => {
            if number >= low && number <= high {
                Ok(number)
            } else {
                Err(CanonFault::Value { which })
            }
        }
        None => Err(CanonFault::Value { which }),
    }
}

pub fn name_at(value: &Value, which: MemberName) -> Result<Name, CanonFault>
    ensures ok { IfOk result (λ name. get (member_text which) (view value.now) ≡ Some (string (name_text name))) }
    ensures fault { result_err result
        ≡ fault_unless (holds_text is_name (get (member_text which) (view value.now))) which }
{
    match text_at(value, which) {
        Some(text) => match Name::read(text) {
            Ok(name) => Ok(name),
            Err(_) => Err(CanonFault::Value { which }),
        },
        None => Err(CanonFault::Value { which }),
    }
}

pub fn session_at(value: &Value) -> Result<SessionId, CanonFault>
    ensures ok { IfOk result (λ session. get (member_text which_member.Session) (view value.now) ≡ Some (string (session_text session))) }
    ensures fault { result_err result
        ≡ fault_unless (holds_text (λ text. is_none (session_fault text)) (get (member_text which_member.Session) (view value.now))) which_member.Session }
{
    let which = MemberName::Session;
    match text_at(value, which) {
        Some(text) => match SessionId::read(text) {
            Ok(session) => Ok(session),
            Err(_) => Err(CanonFault::Value { which }),
        },
        None => Err(CanonFault::Value { which }),
    }
}

pub fn link_at(value: &Value, which: MemberName) -> Result<Link, CanonFault>
    ensures ok { IfOk result (λ link. get (member_text which) (view value.now) ≡ Some (string (link_text link))) }
    ensures formed { IfOk result IsLink }
    ensures fault { result_err result
        ≡ fault_unless (holds_text is_link (get (member_text which) (view value.now))) which }
{
    match text_at(value, which) {
        Some(text) => match link_read(text) {
            Some(link) => Ok(link),
            None => Err(CanonFault::Value { which }),
        },
        None => Err(CanonFault::Value { which }),
    }
}

pub fn reason_at(value: &Value) -> Result<Reason, CanonFault>
    ensures ok { IfOk result (λ reason. get (member_text which_member.Reason) (view value.now) ≡ Some (string (reason_text reason))) }
    ensures fault { result_err result
        ≡ fault_unless (holds_text (λ text. is_some (reason_named text)) (get (member_text which_member.Reason) (view value.now))) which_member.Reason }
{
    let which = MemberName::Reason;
    match text_at(value, which) {
        Some(text) => match reason_named(text) {
            Some(reason) => Ok(reason),
            None => Err(CanonFault::Value { which }),
        },
        None => Err(CanonFault::Value { which }),
    }
}

pub fn amount_at(value: &Value) -> Result<Amount, CanonFault>
    ensures ok { IfOk result (λ amount. get (member_text which_member.Amount) (view value.now) ≡ Some (number (unsigned amount.number))) }
    ensures fault { result_err result
        ≡ fault_unless (holds_number (is_within 1 greatest_amount) (get (member_text which_member.Amount) (view value.now))) which_member.Amount }
{
    let which = MemberName::Amount;
    match number_at(value, which) {
        Some(number) => match Amount::from(number) {
            Some(amount) => Ok(amount),
            None => Err(CanonFault::Value { which }),
        },
        None => Err(CanonFault::Value { which }),
    }
}

/// A place of the chain, from 1.
pub fn place_at(value: &Value) -> Result<u8, CanonFault>
    ensures ok { IfOk result (λ place. get (member_text which_member.Sequence) (view value.now) ≡ Some (number (unsigned place))) }
    ensures formed { IfOk result IsPlace }
    ensures fault { result_err result
        ≡ fault_unless (holds_number (is_within 1 11) (get (member_text which_member.Sequence) (view value.now))) which_member.Sequence }
{
    let place = number_within(value, MemberName::Sequence, 1, 11)?;
    Ok(place as u8)
}

/// The length of a chain.
pub fn length_at(value: &Value) -> Result<u8, CanonFault>
    ensures ok { IfOk result (λ length. get (member_text which_member.Length) (view value.now) ≡ Some (number (unsigned length))) }
    ensures formed { IfOk result (λ length. length ≤ 11) }
    ensures fault { result_err result
        ≡ fault_unless (holds_number (is_within 0 11) (get (member_text which_member.Length) (view value.now))) which_member.Length }
{
    let length = number_within(value, MemberName::Length, 0, 11)?;
    Ok(length as u8)
}

/// The version of the protocol, which is 1.
pub fn version_at(value: &Value) -> Result<(), CanonFault>
    ensures ok { OnOk result (get (member_text which_member.Version) (view value.now) ≡ Some (number (unsigned 1))) }
    ensures fault { result_err result
        ≡ fault_unless (holds_number (is_within 1 1) (get (member_text which_member.Version) (view value.now))) which_member.Version }
{
    let _version = number_within(value, MemberName::Version, 1, 1)?;
    Ok(())
}
