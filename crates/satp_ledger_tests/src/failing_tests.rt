use crate::fixture::{Found, Given, KeptAccounts, Trouble, act, found_new, make_given, show};
use satp_accounts::Accounts;
use satp_base::{ActFault, Answer, Entry, Ledger, LedgerOp};
use satp_keeper::{KeeperFault, Kept};
use satp_memory::MemDisk;
use std::alloc::Global;

fn fault_of(found: Found) -> Option<KeeperFault> {
    match found {
        Ok(_) => None,
        Err(unopened) => Some(unopened.fault),
    }
}

/// What a founding answers where one call on the disk fails.
fn found_failing(alloc: Global, call: u64) -> Option<Option<KeeperFault>> {
    Some(fault_of(found_new(alloc, Trouble::Fail(call))?))
}

/// A founding makes 18 calls: the cut, the five of an opening that mends, and four for each of three records.
#[test]
fn each_call_of_a_founding_failing_is_answered(rt: HostRuntime) {
    for call in 1..20 {
        let fault = if call < 19 {
            Some(KeeperFault::Disk)
        } else {
            None
        };
        assert!(rt; found_failing(rt.alloc(), call) == Some(fault), "at {call}");
    }
}

/// What two locks, and a look and a lock by the trait answer, of which the first fails.
type Broken = (
    [Result<Answer, KeeperFault>; 2],
    Result<Entry, ActFault>,
    Option<Result<Answer, ActFault>>,
);

fn act_by_the_trait(ledger: &mut KeptAccounts, given: &Given) -> Option<Result<Answer, ActFault>> {
    let terms = given.terms(given.gold, 100)?;
    Some(Ledger::act(ledger, LedgerOp::Lock, given.one, &terms))
}

fn broken(ledger: &mut KeptAccounts, given: &Given) -> Broken {
    let answers = [
        act(ledger, given, LedgerOp::Lock),
        act(ledger, given, LedgerOp::Lock),
    ];
    let looked = ledger.look(given.one);
    (answers, looked, act_by_the_trait(ledger, given))
}

/// The entry that an opening finds, what the operation then answers, and what a look does.
type GoneOn = (Entry, Result<Answer, KeeperFault>, Result<Entry, ActFault>);

fn go_on(ledger: &mut KeptAccounts, given: &Given) -> GoneOn {
    let (entry, _) = show(ledger, given);
    let answer = act(ledger, given, LedgerOp::Lock);
    (entry, answer, ledger.look(given.one))
}

fn gone_on(alloc: Global, given: &Given, disk: MemDisk) -> Option<GoneOn> {
    match Kept::<Accounts, MemDisk>::open(alloc, disk) {
        Ok(mut ledger) => Some(go_on(&mut ledger, given)),
        Err(_) => None,
    }
}

/// A ledger whose first append of an operation fails at one of its four calls, and what stands there when it is opened again.
fn failed_at(alloc: Global, call: u64) -> Option<(Broken, Option<GoneOn>)> {
    let given = make_given()?;
    match found_new(alloc, Trouble::Fail(call.saturating_add(18)))? {
        Ok(mut ledger) => {
            let broken = broken(&mut ledger, &given);
            Some((broken, gone_on(alloc, &given, ledger.into_disk())))
        }
        Err(_) => None,
    }
}

const BROKEN: Broken = (
    [Err(KeeperFault::Disk), Err(KeeperFault::Broken)],
    Err(ActFault::Failed),
    Some(Err(ActFault::Failed)),
);

/// A write that fails may have written: the gate is there after the third call.
#[test]
fn each_call_of_an_operation_failing_breaks_the_keeper_and_an_opening_goes_on(rt: HostRuntime) {
    for (call, entry) in [
        (1, Entry::Absent),
        (2, Entry::Absent),
        (3, Entry::Locked),
        (4, Entry::Locked),
    ] {
        let gone_on = (entry, Ok(Answer::Done), Ok(Entry::Locked));
        assert!(rt;
            failed_at(rt.alloc(), call) == Some((BROKEN, Some(gone_on))),
            "at {call}"
        );
    }
}
