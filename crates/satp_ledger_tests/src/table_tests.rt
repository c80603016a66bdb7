use crate::fixture::{
    Given, KeptAccounts, Opened, Shown, Trouble, act, ask, found_new, make_genesis, make_given,
    open, show,
};
use satp_accounts::Accounts;
use satp_base::{Answer, Entry, LedgerOp};
use satp_keeper::{KeeperFault, Kept};
use satp_memory::MemDisk;
use std::alloc::Global;

type Answered = Option<Result<Answer, KeeperFault>>;

/// What is asked of a new ledger.
#[derive(Clone, Copy)]
enum Plan {
    LockTwice,
    MintAndAssignWhatIsLocked,
    Release,
    AskTooMuch,
    MintToTheCap,
}

fn acted(ledger: &mut KeptAccounts, given: &Given, op: LedgerOp) -> Answered {
    Some(act(ledger, given, op))
}

fn answers(ledger: &mut KeptAccounts, given: &Given, plan: Plan) -> [Answered; 4] {
    match plan {
        Plan::LockTwice => [
            acted(ledger, given, LedgerOp::Lock),
            acted(ledger, given, LedgerOp::Lock),
            None,
            None,
        ],
        Plan::MintAndAssignWhatIsLocked => [
            acted(ledger, given, LedgerOp::Lock),
            acted(ledger, given, LedgerOp::Mint),
            acted(ledger, given, LedgerOp::Assign),
            None,
        ],
        Plan::Release => [
            acted(ledger, given, LedgerOp::Lock),
            acted(ledger, given, LedgerOp::Release),
            None,
            None,
        ],
        Plan::AskTooMuch => [
            Some(ask(ledger, given, LedgerOp::Lock, given.gold, 101)),
            Some(ask(ledger, given, LedgerOp::Lock, given.iron, 1)),
            Some(ask(ledger, given, LedgerOp::Mint, given.gold, 999_901)),
            Some(ask(ledger, given, LedgerOp::Mint, given.iron, 1)),
        ],
        Plan::MintToTheCap => [
            Some(ask(ledger, given, LedgerOp::Mint, given.gold, 999_900)),
            None,
            None,
            None,
        ],
    }
}

/// What a plan comes to: the answers, what the ledger shows, how often no memory was found, and what an opening shows.
#[derive(Clone, Copy, PartialEq, Eq)]
struct Told {
    answers: [Answered; 4],
    shown: Shown,
    wants: u64,
    opened: Opened,
}

fn carry_out(alloc: Global, plan: Plan) -> Option<Told> {
    let given = make_given()?;
    match found_new(alloc, Trouble::None)? {
        Ok(mut ledger) => Some(Told {
            answers: answers(&mut ledger, &given, plan),
            shown: show(&ledger, &given),
            wants: ledger.wants(),
            opened: open(alloc, &given, ledger.into_disk()),
        }),
        Err(_) => None,
    }
}

/// The opening shows what the ledger did, and so many payloads of its journal.
const fn wanted(answers: [Answered; 4], shown: Shown, payloads: usize) -> Told {
    Told {
        answers,
        shown,
        wants: 0,
        opened: (Ok(shown), Some(payloads)),
    }
}

const DONE: Answered = Some(Ok(Answer::Done));

const LOCKED: Entry = Entry::Locked;

/// The journal has the kind, the asset, the holding, and each operation that changed the entry.
const TABLE: [(Plan, [Answered; 4], Shown, usize); 5] = [
    (Plan::LockTwice, [DONE, DONE, None, None], (LOCKED, 0), 4),
    (
        Plan::MintAndAssignWhatIsLocked,
        [
            DONE,
            Some(Ok(Answer::Taken { entry: LOCKED })),
            Some(Err(KeeperFault::OutOfOrder { entry: LOCKED })),
            None,
        ],
        (LOCKED, 0),
        4,
    ),
    (
        Plan::Release,
        [DONE, DONE, None, None],
        (Entry::Released, 100),
        5,
    ),
    (
        Plan::AskTooMuch,
        [
            Some(Ok(Answer::NoFunds { free: 100 })),
            Some(Ok(Answer::NoFunds { free: 0 })),
            Some(Ok(Answer::Capped { total: 100 })),
            Some(Ok(Answer::UnknownAsset)),
        ],
        (Entry::Absent, 100),
        3,
    ),
    (
        Plan::MintToTheCap,
        [DONE, None, None, None],
        (Entry::Minted, 100),
        4,
    ),
];

#[test]
fn a_kept_ledger_answers_and_stores_by_the_table(rt: HostRuntime) {
    for (plan, answers, shown, payloads) in TABLE {
        assert!(rt; carry_out(rt.alloc(), plan) == Some(wanted(answers, shown, payloads)));
    }
}

/// A release and a lock of a ledger that was opened again, and what another opening shows.
type Again = ([Answered; 2], Opened);

fn asked_again(alloc: Global, given: &Given, disk: MemDisk) -> Option<Again> {
    match Kept::<Accounts, MemDisk>::open(alloc, disk) {
        Ok(mut ledger) => {
            let answers = [
                acted(&mut ledger, given, LedgerOp::Release),
                acted(&mut ledger, given, LedgerOp::Lock),
            ];
            Some((answers, open(alloc, given, ledger.into_disk())))
        }
        Err(_) => None,
    }
}

/// What another founding shows, and what an opening does after it.
fn founded_again(alloc: Global, given: &Given, disk: MemDisk) -> Option<(Shown, Opened)> {
    match make_genesis(alloc) {
        Some(genesis) => match Kept::<Accounts, MemDisk>::found(alloc, disk, &genesis) {
            Ok(ledger) => Some((show(&ledger, given), open(alloc, given, ledger.into_disk()))),
            Err(_) => None,
        },
        None => None,
    }
}

/// The disk of a ledger that was asked what is planned.
fn disk_after(alloc: Global, given: &Given, plan: Plan) -> Option<MemDisk> {
    match found_new(alloc, Trouble::None)? {
        Ok(mut ledger) => {
            let _ = answers(&mut ledger, given, plan);
            Some(ledger.into_disk())
        }
        Err(_) => None,
    }
}

fn released_again(alloc: Global) -> Option<Again> {
    let given = make_given()?;
    asked_again(alloc, &given, disk_after(alloc, &given, Plan::Release)?)
}

fn locked_and_founded(alloc: Global) -> Option<(Shown, Opened)> {
    let given = make_given()?;
    founded_again(alloc, &given, disk_after(alloc, &given, Plan::LockTwice)?)
}

#[test]
fn an_opening_goes_on_and_a_founding_begins_anew(rt: HostRuntime) {
    let entry = Entry::Released;
    let answers = [DONE, Some(Ok(Answer::Taken { entry }))];
    assert!(rt; released_again(rt.alloc()) == Some((answers, (Ok((entry, 100)), Some(5)))));
    let shown = (Entry::Absent, 100);
    assert!(rt; locked_and_founded(rt.alloc()) == Some((shown, (Ok(shown), Some(3)))));
}
