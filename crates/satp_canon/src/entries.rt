//! The entries of an update: texts of letters, digits and three marks.

ghost use Rattle.std.specs.Prelude.{◌≡◌, ◌++◌, ◌∷◌, [], map, option_and_then, option_map, IfOk, IfSome, IsTrue, OnOk, Some};
ghost use Rattle.std.specs.List.{list_all};
ghost use Rattle.std.specs.Result.{result_err};
ghost use Rattle.serde_json.specs.Data.{array};
ghost use Rattle.serde_json.specs.Find.{as_array, get};
ghost use Rattle.serde_json.specs.View.{items_view, view};
ghost use Rattle.satp_base.specs.Canonical.{member_text};
ghost use Rattle.satp_base.specs.Forms.{is_entry, is_entry_byte};
ghost use Rattle.satp_base.specs.declared.member.MemberName.TheVariants as which_member;
ghost use Rattle.satp_canon.specs.FirstFault.{are_entries, fault_unless, holds_entries, holds_text};
ghost use Rattle.satp_canon.specs.Reads.{entry_of};

use crate::fault::CanonFault;
use satp_base::{MemberName, Memory, Text, Texts};
use serde_json::Value;
use std::alloc::Global;

/// The items of the member `entries`, at most two.
pub fn entries_at(value: &Value) -> Result<&Vec<Value>, CanonFault>
    ensures ok { IfOk result (λ items. get (member_text which_member.Entries) (view value.now) ≡ Some (array (items_view items.now.items))) }
    ensures formed { IfOk result (λ items. IsTrue (are_entries (map view items.now.items))) }
    ensures fault { result_err result
        ≡ fault_unless (holds_entries (get (member_text which_member.Entries) (view value.now))) which_member.Entries }
{
    let which = MemberName::Entries;
    match items_at(value) {
        Some(items) => {
            if are_entries(items) {
                Ok(items)
            } else {
                Err(CanonFault::Value { which })
            }
        }
        None => Err(CanonFault::Value { which }),
    }
}

fn items_at(value: &Value) -> Option<&Vec<Value>>
    ensures { option_map (λ items. items_view items.now.items) result
        ≡ option_and_then as_array (get (member_text which_member.Entries) (view value.now)) }
{
    value.get("entries")?.as_array()
}

fn are_entries(items: &Vec<Value>) -> bool
    ensures { result ≡ are_entries (map view items.now.items) }
{
    items.len() <= 2 && items.iter().all(is_word)
}

fn is_word(item: &Value) -> bool
    ensures { result ≡ holds_text is_entry (Some (view item.now)) }
{
    match item.as_str() {
        Some(text) => is_entry(text.as_bytes()),
        None => false,
    }
}

/// 1 to 2,048 letters, digits, `-`, `_` and full stops.
fn is_entry(text: &[u8]) -> bool
    ensures { result ≡ is_entry text.now }
{
    let many = text.len();
    many >= 1 && many <= 2048 && are_entry_bytes(text)
}

fn are_entry_bytes(text: &[u8]) -> bool
    ensures { result ≡ list_all is_entry_byte text.now }
{
    text.iter().all(|byte| is_entry_byte(*byte))
}

fn is_entry_byte(byte: u8) -> bool
    ensures { result ≡ is_entry_byte byte }
{
    byte.is_ascii_uppercase()
        || byte.is_ascii_lowercase()
        || byte.is_ascii_digit()
        || byte == b'-'
        || byte == b'_'
        || byte == b'.'
}

/// Copies of the items.
pub fn copies(alloc: Global, items: &Vec<Value>) -> Result<Texts, Memory>
    ensures { IfOk result (λ texts. texts ≡ map (λ item. entry_of (view item)) items.now.items) }
{
    let mut texts = Texts::new(alloc);
    for item in items {
        push_copy(alloc, &mut texts, item)?;
    }
    Ok(texts)
}

fn push_copy(alloc: Global, texts: &mut Texts, item: &Value) -> Result<(), Memory>
    ensures { OnOk result (texts.new ≡ texts.old ++ entry_of (view item.now) ∷ []) }
{
    let copy = Text::copy(alloc, word_of(item))?;
    match texts.push(copy) {
        Ok(()) => Ok(()),
        Err(_) => Err(Memory),
    }
}

fn word_of(item: &Value) -> &[u8]
    ensures { result.now ≡ entry_of (view item.now) }
{
    match item.as_str() {
        Some(text) => text.as_bytes(),
        None => b"",
    }
}
