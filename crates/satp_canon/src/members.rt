//! Which members an object has too few or too many.

ghost use Rattle.std.specs.Prelude.{◌≡◌, [], map, filter, fold, not, option_map, is_some, if◌then◌else◌};
ghost use Rattle.serde_json.specs.Find.{get};
ghost use Rattle.serde_json.specs.View.{members_view, view};
ghost use Rattle.satp_base.specs.Canonical.{member_text};
ghost use Rattle.satp_canon.specs.FirstFault.{is_named, least, least_yet, lesser, member_fault, member_list, odd_names};

use crate::fault::CanonFault;
use crate::names::{member_is, member_named};
use satp_base::MemberName;
use serde_json::{Map, Value};
use std::cmp::Ordering;

/// The first name in byte order that stands in the object or in the list and not in both.
pub fn odd_member(value: &Value, names: &[MemberName]) -> Option<CanonFault>
    ensures { result ≡ member_fault names.now (view value.now) }
{
    match odd_name(value, names) {
        Some(name) => Some(CanonFault::Member {
            which: member_named(name),
        }),
        None => None,
    }
}

fn odd_name<'v>(value: &'v Value, names: &[MemberName]) -> Option<&'v [u8]>
    ensures { option_map (λ text. text.now) result ≡ least (odd_names names.now (view value.now)) }
{
    let missing = missing(value, names);
    match value.as_object() {
        Some(map) => extra(map, names, missing),
        None => missing,
    }
}

/// The first name of the list that the object doesn't have.
fn missing(value: &Value, names: &[MemberName]) -> Option<&'static [u8]>
    ensures { option_map (λ text. text.now) result
        ≡ least (filter (λ text. not (is_some (get text (view value.now)))) (map member_text names.now)) }
{
    let mut least = None;
    for name in names {
        let there = value.get(name.text()).is_some();
        least = nearer_if(!there, least, name.text().as_bytes());
    }
    least
}

/// The first of a name found already and the names of the object that the list doesn't have.
fn extra<'v>(
    map: &'v Map<String, Value>,
    names: &[MemberName],
    found: Option<&'v [u8]>,
) -> Option<&'v [u8]>
    ensures { option_map (λ text. text.now) result
        ≡ fold least_yet (option_map (λ text. text.now) found.entry)
        (filter (λ text. not (is_named names.now text)) (member_list (members_view map.now.entries))) }
{
    let mut least = found;
    for (key, _value) in map.iter() {
        let listed = is_listed(names, key.as_bytes());
        least = nearer_if(!listed, least, key.as_bytes());
    }
    least
}

fn is_listed(names: &[MemberName], text: &[u8]) -> bool
    ensures { result ≡ is_named names.now text.now }
{
    names.iter().any(|name| member_is(*name, text))
}

/// The lesser in byte order of what was found yet and this name, where it is odd.
fn nearer_if<'n>(odd: bool, yet: Option<&'n [u8]>, name: &'n [u8]) -> Option<&'n [u8]>
    ensures { option_map (λ text. text.now) result
        ≡ (if odd then least_yet (option_map (λ text. text.now) yet.entry) name.now
        else option_map (λ text. text.now) yet.entry) }
{
    if odd { nearer(yet, name) } else { yet }
}

fn nearer<'n>(yet: Option<&'n [u8]>, name: &'n [u8]) -> Option<&'n [u8]>
    ensures { option_map (λ text. text.now) result
        ≡ least_yet (option_map (λ text. text.now) yet.entry) name.now }
{
    match yet {
        None => Some(name),
        Some(other) => match other.cmp(name) {
            Ordering::Less | Ordering::Equal => Some(other),
            Ordering::Greater => Some(name),
        },
    }
}
