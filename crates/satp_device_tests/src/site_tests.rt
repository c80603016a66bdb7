use satp_accounts::Accounts;
use satp_base::{
    ActFault, Amount, Answer, Area, Disk, Entry, Genesis, Ledger, LedgerCore, LedgerKind, LedgerOp,
    Name, SessionId, Site, SiteFault, Terms,
};
use satp_memory::MemSite;
use std::alloc::Global;

fn session() -> Option<SessionId> {
    SessionId::read(b"alpha.1").ok()
}

/// All the gold that ann has, from ann to bob.
fn terms() -> Option<Terms> {
    Some(Terms {
        amount: Amount::from(100)?,
        asset: Name::read(b"gold").ok()?,
        beneficiary: Name::read(b"bob").ok()?,
        originator: Name::read(b"ann").ok()?,
    })
}

/// An answer, and what is free after it.
type Told = (Result<Answer, ActFault>, Option<u64>);

/// An entry that is looked at, and what is free then.
type Left = (Result<Entry, ActFault>, Option<u64>);

/// Which of three foundings are done, and what is free after each.
type Foundings = [(Result<(), SiteFault>, Option<u64>); 3];

/// What an opening, a look and an operation answer.
type Unfounded = (Result<(), SiteFault>, Result<Entry, ActFault>, Told);

/// A site, and what its ledger is founded with and asked about.
#[derive(Drop)]
struct Tried {
    site: MemSite<Accounts>,
    genesis: Genesis,
    session: SessionId,
    terms: Terms,
}

impl Tried {
    /// A new site.
    fn new(alloc: Global) -> Option<Tried> {
        let session = session()?;
        let terms = terms()?;
        let genesis = Genesis::read(alloc, b"asset gold 500\nhold gold ann 100\n").ok()?;
        let site = MemSite::new(alloc).ok()?;
        Some(Tried {
            site,
            genesis,
            session,
            terms,
        })
    }

    /// A founding, and what is free after it.
    fn found(&mut self, kind: LedgerKind) -> (Result<(), SiteFault>, Option<u64>) {
        let founded = self.site.found(kind, &self.genesis);
        (founded, self.free())
    }

    fn raise(&mut self) -> Result<(), SiteFault> {
        self.site.raise()
    }

    /// An operation, and what is free after it.
    fn act(&mut self, op: LedgerOp) -> (Result<Answer, ActFault>, Option<u64>) {
        let answer = self.site.act(op, self.session, &self.terms);
        (answer, self.free())
    }

    fn look(&mut self) -> Result<Entry, ActFault> {
        self.site.look(self.session)
    }

    /// What ann is free to use of the gold, where there is a ledger.
    fn free(&self) -> Option<u64> {
        let core = self.site.core()?;
        Some(core.free(self.terms.asset, self.terms.originator))
    }

    /// How many calls there were, and how many failed because no memory was found.
    fn calls(&self) -> (u64, u64) {
        (self.site.count(), self.site.wants())
    }

    /// Operations in order, each with its answer and with what is free after it.
    fn operations(&mut self) -> [Told; 6] {
        [
            self.act(LedgerOp::Lock),
            self.act(LedgerOp::Lock),
            self.act(LedgerOp::Mint),
            self.act(LedgerOp::Assign),
            self.act(LedgerOp::Release),
            self.act(LedgerOp::Lock),
        ]
    }

    /// Three foundings, of which the third is to fail.
    fn foundings(&mut self) -> Foundings {
        let _ = self.site.fail(3);
        [
            self.found(LedgerKind::Outputs),
            self.found(LedgerKind::Accounts),
            self.found(LedgerKind::Accounts),
        ]
    }

    /// The calls on a site that was not founded.
    fn unfounded(&mut self) -> Unfounded {
        (self.raise(), self.look(), self.act(LedgerOp::Lock))
    }

    /// The entry and what is free after a stop and a restart.
    fn left_by(&mut self, events: u64) -> Left {
        self.site.stop_at(events, 7);
        let _ = self.found(LedgerKind::Accounts);
        let _ = self.act(LedgerOp::Lock);
        let _ = self.act(LedgerOp::Lock);
        let _ = self.act(LedgerOp::Release);
        let _ = self.site.restart();
        (self.look(), self.free())
    }

    /// Which of five calls fail, of which one is to: a founding, an opening, a look, an operation, and a length of an area.
    fn failures(&mut self, call: u64) -> [bool; 5] {
        let _ = self.site.fail(call);
        [
            self.found(LedgerKind::Accounts).0.is_err(),
            self.raise().is_err(),
            self.look().is_err(),
            self.act(LedgerOp::Lock).0.is_err(),
            self.site.length(Area::Ledger).is_err(),
        ]
    }
}

#[derive(Clone, Copy, PartialEq, Eq)]
struct Table {
    founded: (Result<(), SiteFault>, Option<u64>),
    raised: Result<(), SiteFault>,
    told: [Told; 6],
    entry: Result<Entry, ActFault>,
    calls: (u64, u64),
}

const TABLE: Table = Table {
    founded: (Ok(()), Some(100)),
    raised: Ok(()),
    told: [
        (Ok(Answer::Done), Some(0)),
        (Ok(Answer::Done), Some(0)),
        (
            Ok(Answer::Taken {
                entry: Entry::Locked,
            }),
            Some(0),
        ),
        (
            Err(ActFault::OutOfOrder {
                entry: Entry::Locked,
            }),
            Some(0),
        ),
        (Ok(Answer::Done), Some(100)),
        (
            Ok(Answer::Taken {
                entry: Entry::Released,
            }),
            Some(100),
        ),
    ],
    entry: Ok(Entry::Released),
    calls: (9, 0),
};

fn table_of_a_new_site(alloc: Global) -> Option<Table> {
    let mut tried = Tried::new(alloc)?;
    Some(Table {
        founded: tried.found(LedgerKind::Accounts),
        raised: tried.raise(),
        told: tried.operations(),
        entry: tried.look(),
        calls: tried.calls(),
    })
}

#[test]
fn the_ledger_of_a_site_answers_by_the_table(rt: HostRuntime) {
    assert!(rt; table_of_a_new_site(rt.alloc()) == Some(TABLE));
}

fn calls_on_a_new_site(alloc: Global) -> Option<(Unfounded, (u64, u64))> {
    let mut tried = Tried::new(alloc)?;
    Some((tried.unfounded(), tried.calls()))
}

#[test]
fn a_site_that_was_not_founded_fails(rt: HostRuntime) {
    let failed = (
        Err(SiteFault),
        Err(ActFault::Failed),
        (Err(ActFault::Failed), None),
    );
    assert!(rt; calls_on_a_new_site(rt.alloc()) == Some((failed, (3, 0))));
}

fn foundings_of_a_new_site(alloc: Global) -> Option<(Foundings, (u64, u64))> {
    let mut tried = Tried::new(alloc)?;
    Some((tried.foundings(), tried.calls()))
}

#[test]
fn a_founding_that_fails_leaves_no_ledger(rt: HostRuntime) {
    let founded = [
        (Err(SiteFault), None),
        (Ok(()), Some(100)),
        (Err(SiteFault), None),
    ];
    assert!(rt; foundings_of_a_new_site(rt.alloc()) == Some((founded, (3, 0))));
}

fn failures(alloc: Global, call: u64) -> Option<[bool; 5]> {
    let mut tried = Tried::new(alloc)?;
    Some(tried.failures(call))
}

/// A site whose founding failed has no ledger, so that the three calls after it fail too.
#[test]
fn each_call_of_a_site_fails_once(rt: HostRuntime) {
    for (call, failed) in [
        (1, [true, true, true, true, false]),
        (2, [false, true, false, false, false]),
        (3, [false, false, true, false, false]),
        (4, [false, false, false, true, false]),
        (5, [false, false, false, false, true]),
    ] {
        assert!(rt; failures(rt.alloc(), call) == Some(failed), "at {call}");
    }
}

fn left_by(alloc: Global, events: u64) -> Option<Left> {
    let mut tried = Tried::new(alloc)?;
    Some(tried.left_by(events))
}

/// The events are the founding, the lock and the release; a lock that is there already makes none.
#[test]
fn a_site_stops_at_events_of_its_ledger(rt: HostRuntime) {
    for (events, left) in [
        (0, (Err(ActFault::Failed), None)),
        (1, (Ok(Entry::Absent), Some(100))),
        (2, (Ok(Entry::Locked), Some(0))),
        (3, (Ok(Entry::Released), Some(100))),
    ] {
        assert!(rt; left_by(rt.alloc(), events) == Some(left), "after {events}");
    }
}
