//! What the tests begin with: names, and ledgers that are kept on a disk.
//!
//! The calls have no `ensures`: else the proofs of the tests carry all that a ledger promises.

use satp_accounts::Accounts;
use satp_base::{
    Amount, Answer, Area, Entry, Genesis, LedgerCore, LedgerOp, Name, SessionId, Terms,
};
use satp_journal::Journal;
use satp_keeper::{KeeperFault, Kept, Unopened};
use satp_memory::MemDisk;
use std::alloc::Global;

/// The names and the sessions that the tests speak of.
#[derive(Clone, Copy)]
pub struct Given {
    pub gold: Name,
    pub iron: Name,
    pub ann: Name,
    pub bob: Name,
    pub one: SessionId,
    pub two: SessionId,
}

pub fn make_given() -> Option<Given> {
    Some(Given {
        gold: Name::read(b"gold").ok()?,
        iron: Name::read(b"iron").ok()?,
        ann: Name::read(b"ann").ok()?,
        bob: Name::read(b"bob").ok()?,
        one: SessionId::read(b"alpha.1").ok()?,
        two: SessionId::read(b"beta.1").ok()?,
    })
}

impl Given {
    /// So much of an asset, from ann to bob.
    pub fn terms(&self, asset: Name, number: u64) -> Option<Terms> {
        Some(Terms {
            amount: Amount::from(number)?,
            asset,
            beneficiary: self.bob,
            originator: self.ann,
        })
    }
}

pub type KeptAccounts = Kept<Accounts, MemDisk>;

/// What a new disk does while a ledger is founded on it, and after.
#[derive(Clone, Copy)]
pub enum Trouble {
    None,
    /// The call of this number fails.
    Fail(u64),
    /// The disk stops after so many events, and leaves what the pick says.
    Stop(u64, u32),
}

fn troubled_disk(alloc: Global, trouble: Trouble) -> Option<MemDisk> {
    let mut disk = MemDisk::new(alloc).ok()?;
    match trouble {
        Trouble::None => {}
        Trouble::Fail(call) => {
            let _ = disk.fail(call);
        }
        Trouble::Stop(events, pick) => disk.stop_at(events, pick),
    }
    Some(disk)
}

/// Ann has 100 gold of at most 1000000.
pub fn make_genesis(alloc: Global) -> Option<Genesis> {
    Genesis::read(alloc, b"asset gold 1000000\nhold gold ann 100\n").ok()
}

pub type Found = Result<KeptAccounts, Unopened<MemDisk>>;

/// A ledger that is founded on a new disk.
pub fn found_new(alloc: Global, trouble: Trouble) -> Option<Found> {
    let genesis = make_genesis(alloc)?;
    let disk = troubled_disk(alloc, trouble)?;
    Some(Kept::found(alloc, disk, &genesis))
}

/// An operation of the first session on so much of an asset, from ann to bob.
pub fn ask(
    ledger: &mut KeptAccounts,
    given: &Given,
    op: LedgerOp,
    asset: Name,
    number: u64,
) -> Result<Answer, KeeperFault> {
    match given.terms(asset, number) {
        Some(terms) => Kept::act(ledger, op, given.one, &terms),
        None => Err(KeeperFault::Memory),
    }
}

/// An operation on all the gold that ann has.
pub fn act(ledger: &mut KeptAccounts, given: &Given, op: LedgerOp) -> Result<Answer, KeeperFault> {
    ask(ledger, given, op, given.gold, 100)
}

/// The entry of the first session, and what ann is free to use of the gold.
pub type Shown = (Entry, u64);

pub fn show(ledger: &KeptAccounts, given: &Given) -> Shown {
    let core = ledger.core();
    (core.entry(given.one), core.free(given.gold, given.ann))
}

/// How many payloads the journal of the ledger has.
fn count(alloc: Global, disk: MemDisk) -> Option<usize> {
    let mut disk = disk;
    match Journal::open(alloc, &mut disk, Area::Ledger) {
        Ok(journal) => Some(journal.count()),
        Err(_) => None,
    }
}

/// What an opening shows, or why there is none; and how many payloads the journal has.
pub type Opened = (Result<Shown, KeeperFault>, Option<usize>);

pub fn open(alloc: Global, given: &Given, disk: MemDisk) -> Opened {
    match Kept::<Accounts, MemDisk>::open(alloc, disk) {
        Ok(ledger) => (Ok(show(&ledger, given)), count(alloc, ledger.into_disk())),
        Err(unopened) => {
            let Unopened { disk, fault } = unopened;
            (Err(fault), count(alloc, disk))
        }
    }
}

/// An opening after a restart.
pub fn restart_and_open(alloc: Global, given: &Given, disk: MemDisk) -> Opened {
    let mut disk = disk;
    let _ = disk.restart();
    open(alloc, given, disk)
}
