use crate::fixture::{Given, make_given};
use satp_base::{
    Amount, Answer, CoreFault, Entry, Genesis, LedgerCore, LedgerOp, Name, SessionId, Terms,
};
use satp_outputs::{Output, Outputs};
use std::alloc::Global;

/// The outputs of the numbers from 1 to 5.
type Numbers = [Option<Output>; 5];

fn numbers(ledger: &Outputs) -> Numbers {
    [
        ledger.output(1),
        ledger.output(2),
        ledger.output(3),
        ledger.output(4),
        ledger.output(5),
    ]
}

/// What an operation answers, and the outputs after it.
type Step = (Result<Answer, CoreFault>, Numbers);

fn step(ledger: &mut Outputs, op: LedgerOp, session: SessionId, terms: &Terms) -> Step {
    let answer = ledger.apply(op, session, terms);
    (answer, numbers(ledger))
}

fn begun(alloc: Global, genesis: &[u8]) -> Option<Outputs> {
    let genesis = Genesis::read(alloc, genesis).ok()?;
    Outputs::begin(alloc, &genesis).ok()
}

/// So much gold from bob to ann.
fn terms_from_bob(given: &Given, number: u64) -> Option<Terms> {
    Some(Terms {
        amount: Amount::from(number)?,
        asset: given.gold,
        beneficiary: given.ann,
        originator: given.bob,
    })
}

/// Gold of an owner, as an output.
fn gold(given: &Given, owner: Name, amount: u64) -> Option<Output> {
    Some(Output {
        asset: given.gold,
        owner,
        amount,
    })
}

/// A lock that takes the first outputs and makes the change, and a burn: the outputs before them, what they do, what bob is free to use and how much there is.
#[derive(Clone, Copy, PartialEq, Eq)]
struct Change {
    before: Numbers,
    locked: Step,
    free: u64,
    burnt: Step,
    total: u64,
}

fn make_change(ledger: &mut Outputs, given: &Given, terms: &Terms) -> Change {
    Change {
        before: numbers(ledger),
        locked: step(ledger, LedgerOp::Lock, given.one, terms),
        free: ledger.free(given.gold, given.bob),
        burnt: step(ledger, LedgerOp::Burn, given.one, terms),
        total: ledger.total(given.gold),
    }
}

fn change_wanted(given: &Given) -> Change {
    let (hundred, fifty) = (gold(given, given.bob, 100), gold(given, given.bob, 50));
    let left = [None, None, fifty, fifty, None];
    Change {
        before: [hundred, gold(given, given.bob, 200), fifty, None, None],
        locked: (Ok(Answer::Done), left),
        free: 100,
        burnt: (Ok(Answer::Done), left),
        total: 100,
    }
}

fn change_of(alloc: Global, given: &Given) -> Option<Change> {
    let terms = terms_from_bob(given, 250)?;
    let mut ledger = begun(
        alloc,
        b"asset gold 1000000\nhold gold bob 100\nhold gold bob 200\nhold gold bob 50\n",
    )?;
    Some(make_change(&mut ledger, given, &terms))
}

/// A lock and a release, a mint and an assignment; and how much there is.
fn make_news(ledger: &mut Outputs, given: &Given, all: &Terms, coming: &Terms) -> ([Step; 4], u64) {
    let steps = [
        step(ledger, LedgerOp::Lock, given.one, all),
        step(ledger, LedgerOp::Release, given.one, all),
        step(ledger, LedgerOp::Mint, given.two, coming),
        step(ledger, LedgerOp::Assign, given.two, coming),
    ];
    (steps, ledger.total(given.gold))
}

fn news_wanted(given: &Given) -> ([Step; 4], u64) {
    let bob = gold(given, given.bob, 30);
    let released = gold(given, given.ann, 100);
    let assigned = gold(given, given.ann, 7);
    let steps = [
        (Ok(Answer::Done), [None, bob, None, None, None]),
        (Ok(Answer::Done), [None, bob, None, released, None]),
        (Ok(Answer::Done), [None, bob, None, released, None]),
        (Ok(Answer::Done), [None, bob, None, released, assigned]),
    ];
    (steps, 137)
}

fn news_of(alloc: Global, given: &Given) -> Option<([Step; 4], u64)> {
    let all = given.terms(given.gold, 100)?;
    let coming = terms_from_bob(given, 7)?;
    let mut ledger = begun(
        alloc,
        b"asset gold 400\nhold gold ann 60\nhold gold bob 30\nhold gold ann 40\n",
    )?;
    Some(make_news(&mut ledger, given, &all, &coming))
}

/// A lock of more than ann has, a mint past the cap, and a mint and a burn of an asset that isn't there leave the outputs.
fn refuse(ledger: &mut Outputs, given: &Given, terms: [Terms; 3]) -> [Step; 4] {
    let [much, more, iron] = terms;
    [
        step(ledger, LedgerOp::Lock, given.one, &much),
        step(ledger, LedgerOp::Mint, given.one, &more),
        step(ledger, LedgerOp::Mint, given.one, &iron),
        step(ledger, LedgerOp::Burn, given.one, &iron),
    ]
}

fn refusals_of(alloc: Global, given: &Given) -> Option<[Step; 4]> {
    let terms = [
        given.terms(given.gold, 101)?,
        given.terms(given.gold, 401)?,
        given.terms(given.iron, 1)?,
    ];
    let mut ledger = begun(alloc, b"asset gold 500\nhold gold ann 100\n")?;
    Some(refuse(&mut ledger, given, terms))
}

fn refusals_wanted(given: &Given) -> [Step; 4] {
    let left = [gold(given, given.ann, 100), None, None, None, None];
    let entry = Entry::Absent;
    [
        (Ok(Answer::NoFunds { free: 100 }), left),
        (Ok(Answer::Capped { total: 100 }), left),
        (Ok(Answer::UnknownAsset), left),
        (Err(CoreFault::OutOfOrder { entry }), left),
    ]
}

#[test]
fn operations_take_the_first_outputs_and_make_new_ones(rt: HostRuntime) {
    let given = make_given();
    assert!(rt; given.is_some());
    if let Some(given) = given {
        assert!(rt; change_of(rt.alloc(), &given) == Some(change_wanted(&given)));
        assert!(rt; news_of(rt.alloc(), &given) == Some(news_wanted(&given)));
        assert!(rt; refusals_of(rt.alloc(), &given) == Some(refusals_wanted(&given)));
    }
}
