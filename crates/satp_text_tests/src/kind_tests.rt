// Texts of all seventeen kinds and of terms, made from the members that each has.

use crate::canon_tests::fault;
use crate::grown::put;
use satp_base::Text;
use satp_canon::{CanonFault, MemberName};
use std::alloc::Global;

/// A member, its name, and a value that it may have, as they are written.
type Member = (MemberName, &'static str, &'static str);

const LINK: &str = r#""ungWv48Bz-pBQUDeXa4iI7ADYaOWF3qctBD_YfIAFa0""#;

// The value of a kind is its row's.
const KIND: Member = (MemberName::Kind, "kind", "");

const AMOUNT: Member = (MemberName::Amount, "amount", "250");

const ASSET: Member = (MemberName::Asset, "asset", r#""gold""#);

const BENEFICIARY: Member = (MemberName::Beneficiary, "beneficiary", r#""bob""#);

const ENTRIES: Member = (MemberName::Entries, "entries", r#"["a.b-_Z9"]"#);

const LAST: Member = (MemberName::Last, "last", LINK);

const LENGTH: Member = (MemberName::Length, "length", "11");

const ORIGINATOR: Member = (MemberName::Originator, "originator", r#""ann""#);

const PREVIOUS: Member = (MemberName::Previous, "previous", LINK);

const REASON: Member = (MemberName::Reason, "reason", r#""aborted""#);

const RECEIVER: Member = (MemberName::Receiver, "receiver", r#""beta""#);

const SENDER: Member = (MemberName::Sender, "sender", r#""alpha""#);

const SEQUENCE: Member = (MemberName::Sequence, "sequence", "11");

const SESSION: Member = (MemberName::Session, "session", r#""alpha.1""#);

const TERMS: Member = (
    MemberName::Terms,
    "terms",
    r#"{"amount":250,"asset":"gold","beneficiary":"bob","originator":"ann"}"#,
);

const VERSION: Member = (MemberName::Version, "version", "1");

static PROPOSAL: [Member; 8] = [
    KIND, PREVIOUS, RECEIVER, SENDER, SEQUENCE, SESSION, TERMS, VERSION,
];

static REJECT: [Member; 8] = [
    KIND, PREVIOUS, REASON, RECEIVER, SENDER, SEQUENCE, SESSION, VERSION,
];

static PLAIN: [Member; 7] = [KIND, PREVIOUS, RECEIVER, SENDER, SEQUENCE, SESSION, VERSION];

static STANDING: [Member; 7] = [KIND, LAST, LENGTH, RECEIVER, SENDER, SESSION, VERSION];

static UPDATE: [Member; 7] = [ENTRIES, KIND, LENGTH, RECEIVER, SENDER, SESSION, VERSION];

static PROPOSED: [Member; 4] = [AMOUNT, ASSET, BENEFICIARY, ORIGINATOR];

/// An object with its members, in byte order of their names, and the text around it.
#[derive(Clone, Copy)]
struct Row {
    kind: &'static str,
    before: &'static str,
    members: &'static [Member],
    after: &'static str,
}

fn of_kind(kind: &'static str, members: &'static [Member]) -> Row {
    Row {
        kind,
        before: "{",
        members,
        after: "}",
    }
}

/// The seventeen kinds, and the terms of a proposal.
fn rows() -> [Row; 18] {
    [
        of_kind(r#""transfer-proposal""#, &PROPOSAL),
        of_kind(r#""proposal-receipt""#, &PLAIN),
        of_kind(r#""transfer-commence""#, &PLAIN),
        of_kind(r#""commence-ack""#, &PLAIN),
        of_kind(r#""lock-assert""#, &PLAIN),
        of_kind(r#""lock-receipt""#, &PLAIN),
        of_kind(r#""commit-prepare""#, &PLAIN),
        of_kind(r#""commit-ready""#, &PLAIN),
        of_kind(r#""commit-final""#, &PLAIN),
        of_kind(r#""commit-final-ack""#, &PLAIN),
        of_kind(r#""transfer-complete""#, &PLAIN),
        of_kind(r#""reject""#, &REJECT),
        of_kind(r#""rollback""#, &PLAIN),
        of_kind(r#""rollback-ack""#, &PLAIN),
        of_kind(r#""recover""#, &STANDING),
        of_kind(r#""recover-update""#, &UPDATE),
        of_kind(r#""recover-success""#, &STANDING),
        Row {
            kind: "",
            before: r#"{"kind":"transfer-proposal","previous":"ungWv48Bz-pBQUDeXa4iI7ADYaOWF3qctBD_YfIAFa0","receiver":"beta","sender":"alpha","sequence":1,"session":"alpha.1","terms":{"#,
            members: &PROPOSED,
            after: r#"},"version":1}"#,
        },
    ]
}

/// What is wrong with one member of an object.
#[derive(Clone, Copy, PartialEq, Eq)]
enum Change {
    Missing,
    Doubled,
    WrongType,
    /// The member and the next one are exchanged.
    Late,
}

/// Which member an object has at an index, where the one at `late` and the next one are exchanged.
fn picked(index: usize, late: Option<usize>) -> usize {
    match late {
        Some(at) if index == at => at.wrapping_add(1),
        Some(at) if index == at.wrapping_add(1) => at,
        _ => index,
    }
}

fn add_member(text: &mut Text, name: &str, value: &str) {
    let is_first = text.bytes().ends_with(b"{");
    put(text, b",", if is_first { 0 } else { 1 });
    put(text, b"\"", 1);
    put(text, name.as_bytes(), 1);
    put(text, b"\":", 1);
    put(text, value.as_bytes(), 1);
}

/// Adds a member, with this change.
fn add(text: &mut Text, row: Row, member: Member, change: Option<Change>) {
    let (which, name, value) = member;
    let value = if which == MemberName::Kind {
        row.kind
    } else {
        value
    };
    match change {
        Some(Change::Missing) => (),
        Some(Change::WrongType) => add_member(text, name, "true"),
        Some(Change::Doubled) => {
            add_member(text, name, value);
            add_member(text, name, value);
        }
        Some(Change::Late) | None => add_member(text, name, value),
    }
}

/// Adds the members, the one at `at` with this change.
fn add_all(text: &mut Text, row: Row, at: usize, change: Option<Change>) {
    let late = (change == Some(Change::Late)).then_some(at);
    for index in 0..row.members.len() {
        if let Some(member) = row.members.get(picked(index, late)) {
            add(text, row, *member, change.filter(|_| index == at));
        }
    }
}

/// The object of a row in the text around it, its member at `at` changed.
fn object(alloc: Global, row: Row, at: usize, change: Option<Change>) -> Option<Text> {
    let mut text = Text::copy(alloc, row.before.as_bytes()).ok()?;
    add_all(&mut text, row, at, change);
    put(&mut text, row.after.as_bytes(), 1);
    Some(text)
}

/// The place of the first byte in which two texts differ.
fn parting(text: &[u8], other: &[u8]) -> usize {
    text.iter()
        .zip(other.iter())
        .take_while(|(a, b)| a == b)
        .count()
}

/// The fault that the changed text is to have.
fn wanted(change: Change, which: MemberName, text: &[u8], canonical: &[u8]) -> CanonFault {
    match change {
        Change::Missing => CanonFault::Member { which },
        Change::WrongType => CanonFault::Value { which },
        Change::Doubled | Change::Late => CanonFault::NotCanonical {
            at: parting(text, canonical),
        },
    }
}

/// Whether the member at `at`, so changed, gives the fault that is wanted.
fn is_told(alloc: Global, row: Row, at: usize, change: Change, canonical: &[u8]) -> bool {
    match (object(alloc, row, at, Some(change)), row.members.get(at)) {
        (Some(text), Some((which, _, _))) => {
            let wanted = wanted(change, *which, text.bytes(), canonical);
            fault(alloc, text.bytes()) == Some(wanted)
        }
        _ => false,
    }
}

/// The first member for which one of the changes isn't told. The last one has no next.
fn first_untold(alloc: Global, row: Row, canonical: &[u8]) -> Option<usize> {
    let last = row.members.len().saturating_sub(1);
    for at in 0..row.members.len() {
        for change in [Change::Missing, Change::Doubled, Change::WrongType] {
            if !is_told(alloc, row, at, change, canonical) {
                return Some(at);
            }
        }
        if at < last && !is_told(alloc, row, at, Change::Late, canonical) {
            return Some(at);
        }
    }
    None
}

/// Whether the row's text is canonical, and each change of a member is told.
fn is_as_wanted(alloc: Global, row: Row) -> bool {
    match object(alloc, row, 0, None) {
        Some(text) => {
            fault(alloc, text.bytes()).is_none() && first_untold(alloc, row, text.bytes()).is_none()
        }
        None => false,
    }
}

#[test]
fn no_member_is_missing_doubled_exchanged_or_of_another_type(rt: HostRuntime) {
    let alloc = rt.alloc();
    let other = rows().iter().position(|row| !is_as_wanted(alloc, *row));
    assert_eq!(rt; other, None);
}
