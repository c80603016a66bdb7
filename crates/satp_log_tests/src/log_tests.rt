use crate::changes::{Change, Journals};
use satp_base::{Role, Text};
use satp_log::{Log, LogFault};
use std::alloc::Global;

const CHANGES: [Change; 7] = [
    Change::Nothing,
    Change::Missing,
    Change::Doubled,
    Change::Exchanged,
    Change::SetUpAgain,
    Change::OtherKey,
    Change::OtherRole,
];

fn is_other(own: Option<&Text>, replaced: Option<&Text>) -> bool {
    match (own, replaced) {
        (Some(own), Some(replaced)) => own.bytes() != replaced.bytes(),
        _ => false,
    }
}

/// The index of the first payload of the changed journal that may not stand there, if any. A journal may end after each of its payloads.
fn wanted(journals: &Journals, change: Change, at: usize) -> Option<usize> {
    let last = journals.own.length().saturating_sub(1);
    match change {
        Change::Nothing => None,
        Change::Missing | Change::Exchanged => (at < last).then_some(at),
        Change::Doubled => Some(at.saturating_add(1)),
        // At the first place a set-up may stand; it is the payload after it that may not.
        Change::SetUpAgain => Some(at.max(1)),
        Change::OtherKey | Change::OtherRole => {
            is_other(journals.own.get(at), journals.replaced(change, at)).then_some(at.max(1))
        }
    }
}

fn fault(alloc: Global, journals: &Journals, change: Change, at: usize) -> Option<LogFault> {
    match journals.changed(alloc, change, at) {
        Some(payloads) => Log::read(alloc, &payloads).err(),
        None => Some(LogFault::Memory),
    }
}

/// The first index at which the change is answered otherwise.
fn first_other(alloc: Global, journals: &Journals, change: Change) -> Option<usize> {
    for at in 0..journals.own.length() {
        let wanted = wanted(journals, change, at).map(|index| LogFault::Record { index });
        if fault(alloc, journals, change, at) != wanted {
            return Some(at);
        }
    }
    None
}

/// The first change that is answered otherwise, and the index.
fn first_other_change(alloc: Global, journals: &Journals) -> Option<(Change, usize)> {
    for change in CHANGES {
        if let Some(at) = first_other(alloc, journals, change) {
            return Some((change, at));
        }
    }
    None
}

/// What is answered otherwise of the journal of this role, which has so many payloads.
fn answered_otherwise(alloc: Global, role: Role) -> Option<(usize, Option<(Change, usize)>)> {
    match Journals::of(alloc, role) {
        Some(journals) => Some((journals.own.length(), first_other_change(alloc, &journals))),
        None => None,
    }
}

#[test]
fn each_payload_of_a_whole_transfer_changed_at_both_gateways(rt: HostRuntime) {
    let alloc = rt.alloc();
    let answers = [
        answered_otherwise(alloc, Role::Origin),
        answered_otherwise(alloc, Role::Recipient),
    ];
    assert_eq!(rt; answers, [Some((15, None)), Some((14, None))]);
}
