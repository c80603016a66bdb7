use crate::fixture::{Given, make_given};
use satp_accounts::Accounts;
use satp_base::{Answer, CoreFault, Entry, Genesis, LedgerCore, LedgerOp, Name};
use satp_outputs::Outputs;
use std::alloc::Global;

/// What a ledger answers; none where there is no such amount.
type Answered = Option<Result<Answer, CoreFault>>;

/// An operation of the first session on so much of an asset, from ann to bob.
fn ask<L: LedgerCore>(
    ledger: &mut L,
    given: &Given,
    op: LedgerOp,
    asset: Name,
    number: u64,
) -> Answered {
    let terms = given.terms(asset, number)?;
    Some(ledger.apply(op, given.one, &terms))
}

/// An operation on all the gold that ann has: its answer, and what ann is free to use and how much there is then.
fn act<L: LedgerCore>(ledger: &mut L, given: &Given, op: LedgerOp) -> (Answered, u64, u64) {
    let answered = ask(ledger, given, op, given.gold, 100);
    let free = ledger.free(given.gold, given.ann);
    (answered, free, ledger.total(given.gold))
}

/// What the operations of the table answer and leave.
#[derive(Clone, Copy, PartialEq, Eq)]
struct Lines {
    free: u64,
    told: [(Answered, u64, u64); 6],
    entry: Entry,
    free_sum: u64,
}

fn ask_lines<L: LedgerCore>(ledger: &mut L, given: &Given) -> Lines {
    Lines {
        free: ledger.free(given.gold, given.ann),
        told: [
            act(ledger, given, LedgerOp::Lock),
            act(ledger, given, LedgerOp::Lock),
            act(ledger, given, LedgerOp::Mint),
            act(ledger, given, LedgerOp::Assign),
            act(ledger, given, LedgerOp::Release),
            act(ledger, given, LedgerOp::Lock),
        ],
        entry: ledger.entry(given.one),
        free_sum: ledger.free_sum(given.gold),
    }
}

const LINES: Lines = Lines {
    free: 100,
    told: [
        (Some(Ok(Answer::Done)), 0, 350),
        (Some(Ok(Answer::Done)), 0, 350),
        (
            Some(Ok(Answer::Taken {
                entry: Entry::Locked,
            })),
            0,
            350,
        ),
        (
            Some(Err(CoreFault::OutOfOrder {
                entry: Entry::Locked,
            })),
            0,
            350,
        ),
        (Some(Ok(Answer::Done)), 100, 350),
        (
            Some(Ok(Answer::Taken {
                entry: Entry::Released,
            })),
            100,
            350,
        ),
    ],
    entry: Entry::Released,
    free_sum: 350,
};

/// What operations that are refused answer, and then a mint up to the cap and an assignment of other terms.
#[derive(Clone, Copy, PartialEq, Eq)]
struct Refusals {
    refused: [Answered; 4],
    entry: Entry,
    done: [Answered; 2],
    bob: u64,
}

fn ask_refusals<L: LedgerCore>(ledger: &mut L, given: &Given) -> Refusals {
    let refused = [
        ask(ledger, given, LedgerOp::Lock, given.gold, 101),
        ask(ledger, given, LedgerOp::Mint, given.gold, 151),
        ask(ledger, given, LedgerOp::Mint, given.iron, 1),
        ask(ledger, given, LedgerOp::Burn, given.gold, 1),
    ];
    let entry = ledger.entry(given.one);
    let done = [
        ask(ledger, given, LedgerOp::Mint, given.gold, 150),
        ask(ledger, given, LedgerOp::Assign, given.gold, 7),
    ];
    Refusals {
        refused,
        entry,
        done,
        bob: ledger.free(given.gold, given.bob),
    }
}

const REFUSALS: Refusals = Refusals {
    refused: [
        Some(Ok(Answer::NoFunds { free: 100 })),
        Some(Ok(Answer::Capped { total: 350 })),
        Some(Ok(Answer::UnknownAsset)),
        Some(Err(CoreFault::OutOfOrder {
            entry: Entry::Absent,
        })),
    ],
    entry: Entry::Absent,
    done: [Some(Ok(Answer::Done)), Some(Ok(Answer::Done))],
    bob: 400,
};

/// A ledger in which ann has 100 gold of at most 500, and bob 250.
fn begun<L: LedgerCore>(alloc: Global) -> Option<L> {
    let genesis = Genesis::read(
        alloc,
        b"asset gold 500\nhold gold ann 60\nhold gold bob 250\nhold gold ann 40\n",
    )
    .ok()?;
    L::begin(alloc, &genesis).ok()
}

fn lines_of<L: LedgerCore>(alloc: Global) -> Option<Lines> {
    let given = make_given()?;
    let mut ledger = begun::<L>(alloc)?;
    Some(ask_lines(&mut ledger, &given))
}

fn refusals_of<L: LedgerCore>(alloc: Global) -> Option<Refusals> {
    let given = make_given()?;
    let mut ledger = begun::<L>(alloc)?;
    Some(ask_refusals(&mut ledger, &given))
}

#[test]
fn both_ledgers_answer_by_the_table(rt: HostRuntime) {
    assert!(rt; lines_of::<Accounts>(rt.alloc()) == Some(LINES));
    assert!(rt; lines_of::<Outputs>(rt.alloc()) == Some(LINES));
}

#[test]
fn both_ledgers_refuse_with_their_numbers(rt: HostRuntime) {
    assert!(rt; refusals_of::<Accounts>(rt.alloc()) == Some(REFUSALS));
    assert!(rt; refusals_of::<Outputs>(rt.alloc()) == Some(REFUSALS));
}
