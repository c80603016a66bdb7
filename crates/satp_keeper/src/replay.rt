//! A ledger from the payloads of its journal.

ghost use Rattle.std.specs.Prelude.{◌≡◌, ◌≤◌, ◌<◌, ◌↔◌, true, length, take, IfOk, IsTrue, MatchResult};
ghost use Rattle.satp_records.specs.declared.stored.Stored.TheVariants as stored;
ghost use Rattle.satp_keeper.specs.Books.{Leaves};
ghost use Rattle.satp_keeper.specs.Replaying.{DoneAnswers, FollowAnswers, IsRecordAt, ReadsTo, replay_state, start};
ghost use Rattle.satp_keeper.specs.Opening.{IsRecordFault, IsReplayFault, StepAnswers};

use crate::fault::KeeperFault;
use satp_base::{
    AddFault, Amount, Answer, CoreFault, Genesis, LedgerCore, LedgerKind, LedgerOp, Memory, Name,
    SessionId, Terms,
};
use satp_journal::Journal;
use satp_records::{RecordFault, Stored, decode};
use std::alloc::Global;

/// What the records so far say. The ledger begins with the first operation.
#[derive(Drop)]
struct Replay<C: LedgerCore> {
    genesis: Genesis,
    core: Option<C>,
}

/// Whether a ledger answers an operation with `Done`.
fn is_done<C: LedgerCore>(
    core: &mut C,
    op: LedgerOp,
    session: SessionId,
    terms: &Terms,
) -> Result<bool, Memory>
    ensures { DoneAnswers op session terms.now (C.book core.old) (C.book core.new) result }
{
    match core.apply(op, session, terms) {
        Ok(answer) => Ok(answer == Answer::Done),
        Err(CoreFault::OutOfOrder { .. }) => Ok(false),
        Err(CoreFault::Memory) => Err(Memory),
    }
}

impl<C: LedgerCore> Replay<C> {
    fn add_asset(&mut self, name: Name, cap: u64) -> Result<bool, Memory>
        ensures { FollowAnswers (replay_state C.book self.old.genesis self.old.core) (stored.Asset name cap) (replay_state C.book self.new.genesis self.new.core) result }
    {
        let Some(cap) = Amount::from(cap) else {
            return Ok(false);
        };
        if self.core.is_some() || self.genesis.hold_at(0).is_some() {
            return Ok(false);
        }
        match self.genesis.add_asset(name, cap) {
            Ok(()) => Ok(true),
            Err(AddFault::Refused) => Ok(false),
            Err(AddFault::Memory) => Err(Memory),
        }
    }

    fn add_hold(&mut self, asset: Name, owner: Name, amount: Amount) -> Result<bool, Memory>
        ensures { FollowAnswers (replay_state C.book self.old.genesis self.old.core) (stored.Hold asset owner amount) (replay_state C.book self.new.genesis self.new.core) result }
    {
        if self.core.is_some() {
            return Ok(false);
        }
        match self.genesis.add_hold(asset, owner, amount) {
            Ok(()) => Ok(true),
            Err(AddFault::Refused) => Ok(false),
            Err(AddFault::Memory) => Err(Memory),
        }
    }

    fn operate(
        &mut self,
        alloc: Global,
        op: LedgerOp,
        session: SessionId,
        terms: &Terms,
    ) -> Result<bool, Memory>
        ensures { FollowAnswers (replay_state C.book self.old.genesis self.old.core) (stored.Act op session terms.now) (replay_state C.book self.new.genesis self.new.core) result }
    {
        match self.core.take() {
            Some(core) => self.go_on(core, op, session, terms),
            None => match C::begin(alloc, &self.genesis) {
                Ok(core) => self.go_on(core, op, session, terms),
                Err(Memory) => Err(Memory),
            },
        }
    }

    /// Goes on by an operation on a ledger that stands where the records so far have led.
    fn go_on(
        &mut self,
        mut core: C,
        op: LedgerOp,
        session: SessionId,
        terms: &Terms,
    ) -> Result<bool, Memory>
        ensures { FollowAnswers (record { genesis = self.old.genesis; begun = true; book = C.book core }) (stored.Act op session terms.now) (replay_state C.book self.new.genesis self.new.core) result }
    {
        match is_done(&mut core, op, session, terms) {
            Ok(done) => {
                self.core = Some(core);
                Ok(done)
            }
            Err(Memory) => Err(Memory),
        }
    }

    /// Whether a record may stand behind those so far.
    fn follows(&mut self, alloc: Global, stored: &Stored) -> Result<bool, Memory>
        ensures { FollowAnswers (replay_state C.book self.old.genesis self.old.core) stored.now (replay_state C.book self.new.genesis self.new.core) result }
    {
        match stored {
            Stored::Asset { name, cap } => self.add_asset(*name, *cap),
            Stored::Hold {
                asset,
                owner,
                amount,
            } => self.add_hold(*asset, *owner, *amount),
            Stored::Act { op, session, terms } => self.operate(alloc, *op, *session, terms),
            _ => Ok(false),
        }
    }

    /// Goes on by the record of an index.
    fn step(&mut self, alloc: Global, journal: &Journal, index: usize) -> Result<(), KeeperFault>
        requires { index < length journal.now.held.payloads }
        ensures { StepAnswers journal.now.held.payloads index (replay_state C.book self.old.genesis self.old.core) (replay_state C.book self.new.genesis self.new.core) result }
    {
        let stored = match record_at(alloc, journal, index) {
            Ok(stored) => stored,
            Err(fault) => return Err(fault),
        };
        match self.follows(alloc, &stored) {
            Ok(true) => Ok(()),
            Ok(false) => Err(KeeperFault::Record { index }),
            Err(Memory) => Err(KeeperFault::Memory),
        }
    }

    fn finish(self, alloc: Global) -> Result<C, Memory>
        ensures { IfOk result (λ core. C.book core ≡ (replay_state C.book self.genesis self.core).book) }
    {
        let Replay { genesis, core } = self;
        match core {
            Some(core) => Ok(core),
            None => C::begin(alloc, &genesis),
        }
    }
}

/// The record of an index.
fn record_at(alloc: Global, journal: &Journal, index: usize) -> Result<Stored, KeeperFault>
    requires { index < length journal.now.held.payloads }
    ensures { MatchResult result (IsRecordAt journal.now.held.payloads index) (IsRecordFault journal.now.held.payloads index) }
{
    let Some(payload) = journal.payload(index) else {
        unreachable!();
    };
    match decode(alloc, payload) {
        Ok(stored) => Ok(stored),
        Err(RecordFault::Memory) => Err(KeeperFault::Memory),
        Err(_) => Err(KeeperFault::Record { index }),
    }
}

/// The first record is that of the kind of ledger.
fn check_kind(alloc: Global, journal: &Journal, kind: LedgerKind) -> Result<(), KeeperFault>
    ensures { MatchResult result (λ done. (1 ≤ length journal.now.held.payloads) × ReadsTo kind (take 1 journal.now.held.payloads) start) (IsReplayFault kind journal.now.held.payloads) }
{
    if journal.count() == 0 {
        return Err(KeeperFault::Empty);
    }
    let first = match record_at(alloc, journal, 0) {
        Ok(first) => first,
        Err(fault) => return Err(fault),
    };
    if is_kind(&first, kind) {
        return Ok(());
    }
    Err(KeeperFault::Record { index: 0 })
}

/// The record is that of a kind of ledger.
fn is_kind(first: &Stored, kind: LedgerKind) -> bool
    ensures { IsTrue result ↔ (first.now ≡ stored.Kind kind) }
{
    match first {
        Stored::Kind(found) => *found == kind,
        _ => false,
    }
}

/// The ledger that the payloads of a journal stand for.
///
/// `Empty` comes for no payload, and `Record` for the first that may not stand where it does.
pub(crate) fn read_ledger<C: LedgerCore>(
    alloc: Global,
    journal: &Journal,
    kind: LedgerKind,
) -> Result<C, KeeperFault>
    ensures { MatchResult result (λ core. Leaves kind journal.now.held.payloads (C.book core)) (IsReplayFault kind journal.now.held.payloads) }
{
    match check_kind(alloc, journal, kind) {
        Ok(()) => {}
        Err(fault) => return Err(fault),
    }
    let mut replay = Replay {
        genesis: Genesis::new(alloc),
        core: None,
    };
    for index in 1..journal.count() {
        match replay.step(alloc, journal, index) {
            Ok(()) => {}
            Err(fault) => return Err(fault),
        }
    }
    match replay.finish(alloc) {
        Ok(core) => Ok(core),
        Err(Memory) => Err(KeeperFault::Memory),
    }
}
