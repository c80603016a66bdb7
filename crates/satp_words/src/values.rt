ghost use Rattle.std.specs.Prelude.{◌≡◌, ◌≢◌, ℕ, List, IfOk, Err, Some};
ghost use Rattle.clap.specs.Words.{first_value, found_of};
ghost use Rattle.satp_base.specs.Values.{address_text, amount_text, name_text, session_text};
ghost use Rattle.satp_base.specs.declared.address.Address.{Address};
ghost use Rattle.satp_base.specs.declared.amount.Amount.{Amount};
ghost use Rattle.satp_base.specs.declared.ledger.LedgerKind.{LedgerKind};
ghost use Rattle.satp_base.specs.declared.name.Name.{Name};
ghost use Rattle.satp_base.specs.declared.session.SessionId.{SessionId};
ghost use Rattle.satp_words.specs.Commands.{IsKey, IsNumber, ledger_text};

use crate::command::WordsFault;
use crate::keys::key;
use crate::numbers::number;
use clap::ArgMatches;
use satp_base::{Address, Amount, LedgerKind, Name, SessionId, Text};
use std::alloc::Global;

/// The value of an option, any text.
pub(crate) fn text_value(
    alloc: Global,
    found: &ArgMatches,
    option: &str,
) -> Result<Text, WordsFault>
    ensures ok { IfOk result (λ text. first_value (found_of found.now) option.now ≡ Some text) }
    ensures refused { result ≡ Err WordsFault.Refused → (text : List ℕ) → first_value (found_of found.now) option.now ≢ Some text }
{
    let Some(text) = found.get_str(option) else {
        return Err(WordsFault::Refused);
    };
    Ok(Text::copy(alloc, text.as_bytes())?)
}

pub(crate) fn name_value(found: &ArgMatches, option: &str) -> Result<Name, WordsFault>
    ensures ok { IfOk result (λ name. first_value (found_of found.now) option.now ≡ Some (name_text name)) }
    ensures refused { result ≡ Err WordsFault.Refused → (name : Name) → first_value (found_of found.now) option.now ≢ Some (name_text name) }
{
    let Some(text) = found.get_str(option) else {
        return Err(WordsFault::Refused);
    };
    match Name::read(text.as_bytes()) {
        Ok(name) => Ok(name),
        Err(_) => Err(WordsFault::Refused),
    }
}

pub(crate) fn address_value(found: &ArgMatches, option: &str) -> Result<Address, WordsFault>
    ensures ok { IfOk result (λ address. first_value (found_of found.now) option.now ≡ Some (address_text address)) }
    ensures refused { result ≡ Err WordsFault.Refused → (address : Address) → first_value (found_of found.now) option.now ≢ Some (address_text address) }
{
    let Some(text) = found.get_str(option) else {
        return Err(WordsFault::Refused);
    };
    match Address::read(text.as_bytes()) {
        Ok(address) => Ok(address),
        Err(_) => Err(WordsFault::Refused),
    }
}

pub(crate) fn key_value(alloc: Global, found: &ArgMatches, option: &str) -> Result<Text, WordsFault>
    ensures ok { IfOk result (λ key. (text : List ℕ) × (first_value (found_of found.now) option.now ≡ Some text) × IsKey text key) }
    ensures refused { result ≡ Err WordsFault.Refused → (text key : List ℕ) → first_value (found_of found.now) option.now ≡ Some text → ¬ IsKey text key }
{
    let Some(text) = found.get_str(option) else {
        return Err(WordsFault::Refused);
    };
    key(alloc, text)
}

pub(crate) fn ledger_value(found: &ArgMatches, option: &str) -> Result<LedgerKind, WordsFault>
    ensures ok { IfOk result (λ ledger. first_value (found_of found.now) option.now ≡ Some (ledger_text ledger)) }
    ensures refused { result ≡ Err WordsFault.Refused → (ledger : LedgerKind) → first_value (found_of found.now) option.now ≢ Some (ledger_text ledger) }
{
    let Some(text) = found.get_str(option) else {
        return Err(WordsFault::Refused);
    };
    if text == "accounts" {
        Ok(LedgerKind::Accounts)
    } else if text == "outputs" {
        Ok(LedgerKind::Outputs)
    } else {
        Err(WordsFault::Refused)
    }
}

/// The value of an option, a number from `least` to `most` in decimal.
pub(crate) fn number_value(
    found: &ArgMatches,
    option: &str,
    least: u32,
    most: u32,
) -> Result<u32, WordsFault>
    ensures ok { IfOk result (IsNumber least most (first_value (found_of found.now) option.now)) }
    ensures refused { result ≡ Err WordsFault.Refused → (number : ℕ) → ¬ IsNumber least most (first_value (found_of found.now) option.now) number }
{
    let Some(text) = found.get_str(option) else {
        return Err(WordsFault::Refused);
    };
    match number(text.as_bytes()) {
        Some(number) if least <= number && number <= most => Ok(number),
        _ => Err(WordsFault::Refused),
    }
}

pub(crate) fn amount_value(found: &ArgMatches, option: &str) -> Result<Amount, WordsFault>
    ensures ok { IfOk result (λ amount. first_value (found_of found.now) option.now ≡ Some (amount_text amount)) }
    ensures refused { result ≡ Err WordsFault.Refused → (amount : Amount) → first_value (found_of found.now) option.now ≢ Some (amount_text amount) }
{
    let Some(text) = found.get_str(option) else {
        return Err(WordsFault::Refused);
    };
    match Amount::read(text.as_bytes()) {
        Ok(amount) => Ok(amount),
        Err(_) => Err(WordsFault::Refused),
    }
}

pub(crate) fn session_value(found: &ArgMatches, option: &str) -> Result<SessionId, WordsFault>
    ensures ok { IfOk result (λ session. first_value (found_of found.now) option.now ≡ Some (session_text session)) }
    ensures refused { result ≡ Err WordsFault.Refused → (session : SessionId) → first_value (found_of found.now) option.now ≢ Some (session_text session) }
{
    let Some(text) = found.get_str(option) else {
        return Err(WordsFault::Refused);
    };
    match SessionId::read(text.as_bytes()) {
        Ok(session) => Ok(session),
        Err(_) => Err(WordsFault::Refused),
    }
}
