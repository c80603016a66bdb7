ghost use Rattle.std.specs.FinMap as map;
ghost use Rattle.satp_money.specs.Amounts.{Agrees};
ghost use Rattle.satp_accounts.specs.Owners.{amount_at, sum_at};

use crate::begin::first_amounts;
use satp_base::{
    Answer, CoreFault, Entry, Genesis, LedgerCore, LedgerEntry, LedgerKind, LedgerOp, Memory, Name,
    SessionId, Terms,
};
use satp_money::{
    Owned, are_equal, entry_in, is_giving, is_still, pledged_in, receiver, result_of, standing_in,
};
use std::alloc::Global;
use std::collections::BTreeMap;

/// A ledger that keeps what each owner is free to use of each asset.
#[derive(Drop)]
pub struct Accounts {
    genesis: Genesis,
    entries: BTreeMap<SessionId, LedgerEntry>,
    amounts: BTreeMap<Owned, u64>,
    pub ghost agrees: { Agrees
        (record { genesis = genesis; entries = map.from_entries entries.entries })
        (amount_at (map.from_entries amounts.entries)) (sum_at (map.from_entries amounts.entries)) },
}

impl Accounts {
    ghost use Rattle.std.specs.Prelude.{◌≡◌, ◌⊎◌, ◌+◌, ◌≤◌, true, false, OnOk, OnErr};
    ghost use Rattle.satp_base.specs.LedgerRule.{entry_of, is_always_answered, leads, terms_of};
    ghost use Rattle.satp_base.specs.Acts.{Applies};
    ghost use Rattle.satp_base.specs.Money.{free_of, free_sum_of, pledged, sum_entries, total_of};
    ghost use Rattle.satp_base.specs.declared.ledger.Entry.TheVariants.{Absent};
    ghost use Rattle.satp_base.specs.declared.ledger.LedgerOp.TheVariants.{Assign, Burn, Lock, Mint, Release};
    ghost use Rattle.satp_accounts.specs.Books.{book_of};
    ghost use Rattle.satp_money.specs.Steps.{Ends, FitsCap, is_giving, is_still, receiver, with_result};

    /// What is free of an owner.
    fn amount(&self, owned: Owned) -> u64
        ensures { result ≡ free_of (book_of self.now) owned.asset owned.owner }
    {
        self.amounts.get(&owned).copied().unwrap_or(0)
    }

    /// Puts the operation's result as the session's entry, where no owner's amount changes.
    fn put(&mut self, op: LedgerOp, session: SessionId, terms: Terms) -> Result<(), Memory>
        requires still { is_still op (entry_of (book_of self.old).entries session) ≡ true }
        requires terms { terms ≡ terms_of (book_of self.old).entries session terms }
        requires fits { FitsCap (book_of self.old) op terms }
        ensures ok { OnOk result (book_of self.new ≡ with_result (book_of self.old) op session terms) }
        ensures err { OnErr result (book_of self.new ≡ book_of self.old) }
    {
        let entry = result_of(op);
        match self.entries.insert(session, LedgerEntry { entry, terms }) {
            Ok(_) => Ok(()),
            Err(_) => Err(Memory),
        }
    }

    /// Puts the operation's result as the session's entry, and raises the amount of whom it comes to.
    fn give(
        &mut self,
        op: LedgerOp,
        session: SessionId,
        terms: Terms,
        owned: Owned,
    ) -> Result<(), Memory>
        requires giving { is_giving op (entry_of (book_of self.old).entries session) ≡ true }
        requires terms { terms ≡ terms_of (book_of self.old).entries session terms }
        requires receiver { owned ≡ receiver op terms }
        ensures ok { OnOk result (book_of self.new ≡ with_result (book_of self.old) op session terms) }
        ensures err { OnErr result (book_of self.new ≡ book_of self.old) }
    {
        let entry = result_of(op);
        let amount = self.amount(owned) + terms.amount.get();
        if self.amounts.insert(owned, amount).is_err() {
            return Err(Memory);
        }
        if self
            .entries
            .insert(session, LedgerEntry { entry, terms })
            .is_err()
        {
            unreachable!();
        }
        Ok(())
    }

    /// Locks an amount that its owner is free to use.
    fn take(&mut self, session: SessionId, terms: Terms) -> Result<(), Memory>
        requires none { entry_of (book_of self.old).entries session ≡ Absent }
        requires free { terms.amount.number ≤ free_of (book_of self.old) terms.asset terms.originator }
        ensures ok { OnOk result (book_of self.new ≡ with_result (book_of self.old) Lock session terms) }
        ensures err { OnErr result (book_of self.new ≡ book_of self.old) }
    {
        let entry = Entry::Locked;
        let owned = Owned {
            asset: terms.asset,
            owner: terms.originator,
        };
        let left = self.amount(owned) - terms.amount.get();
        if self
            .entries
            .insert(session, LedgerEntry { entry, terms })
            .is_err()
        {
            return Err(Memory);
        }
        if self.amounts.insert(owned, left).is_err() {
            unreachable!();
        }
        Ok(())
    }

    /// Locks an amount, or says why not.
    fn lock(&mut self, session: SessionId, entry: Entry, terms: Terms) -> Result<Answer, CoreFault>
        requires entry { entry ≡ entry_of (book_of self.old).entries session }
        ensures { Applies Lock session terms (book_of self.old) result (book_of self.new) }
    {
        match entry {
            Entry::Absent => self.lock_new(session, terms),
            Entry::Locked => Ok(Answer::Done),
            entry => Ok(Answer::Taken { entry }),
        }
    }

    /// Locks an amount of a session without an entry.
    fn lock_new(&mut self, session: SessionId, terms: Terms) -> Result<Answer, CoreFault>
        requires none { entry_of (book_of self.old).entries session ≡ Absent }
        ensures { Applies Lock session terms (book_of self.old) result (book_of self.new) }
    {
        let free = self.amount(Owned {
            asset: terms.asset,
            owner: terms.originator,
        });
        if free < terms.amount.get() {
            return Ok(Answer::NoFunds { free });
        }
        match self.take(session, terms) {
            Ok(()) => Ok(Answer::Done),
            Err(Memory) => Err(CoreFault::Memory),
        }
    }

    /// Mints an amount, or says why not.
    fn mint(&mut self, session: SessionId, entry: Entry, terms: Terms) -> Result<Answer, CoreFault>
        requires entry { entry ≡ entry_of (book_of self.old).entries session }
        ensures { Applies Mint session terms (book_of self.old) result (book_of self.new) }
    {
        match entry {
            Entry::Absent => self.mint_new(session, terms),
            Entry::Minted => Ok(Answer::Done),
            entry => Ok(Answer::Taken { entry }),
        }
    }

    /// Mints an amount of a session without an entry.
    fn mint_new(&mut self, session: SessionId, terms: Terms) -> Result<Answer, CoreFault>
        requires none { entry_of (book_of self.old).entries session ≡ Absent }
        ensures { Applies Mint session terms (book_of self.old) result (book_of self.new) }
    {
        let Some(cap) = self.genesis.cap(terms.asset) else {
            return Ok(Answer::UnknownAsset);
        };
        let total = self.total_of(terms.asset);
        if total + terms.amount.get() > cap.get() {
            return Ok(Answer::Capped { total });
        }
        match self.put(LedgerOp::Mint, session, terms) {
            Ok(()) => Ok(Answer::Done),
            Err(Memory) => Err(CoreFault::Memory),
        }
    }

    /// Burns, assigns or releases, under the terms that hold for the session.
    fn finish(
        &mut self,
        op: LedgerOp,
        session: SessionId,
        entry: Entry,
        terms: Terms,
    ) -> Result<Answer, CoreFault>
        requires op { is_always_answered op ≡ false }
        requires entry { entry ≡ entry_of (book_of self.old).entries session }
        requires terms { terms ≡ terms_of (book_of self.old).entries session terms }
        ensures { Ends (book_of self.old) entry op session terms result (book_of self.new) }
    {
        if entry == result_of(op) {
            return Ok(Answer::Done);
        }
        let moved = if is_still(op, entry) {
            self.put(op, session, terms)
        } else if is_giving(op, entry) {
            self.give(op, session, terms, receiver(op, terms))
        } else {
            return Err(CoreFault::OutOfOrder { entry });
        };
        match moved {
            Ok(()) => Ok(Answer::Done),
            Err(Memory) => Err(CoreFault::Memory),
        }
    }

    /// What all owners of an asset are free to use.
    fn free_sum_of(&self, asset: Name) -> u64
        ensures { result ≡ free_sum_of (book_of self.now) asset }
    {
        let mut sum = 0;
        for (owned, amount) in self.amounts.iter() {
            if are_equal(asset, owned.asset) {
                sum += *amount;
            }
        }
        sum
    }

    /// How much of an asset there is.
    fn total_of(&self, asset: Name) -> u64
        ensures { result ≡ total_of (book_of self.now) asset }
    {
        self.free_sum_of(asset) + pledged_in(&self.entries, asset)
    }
}

impl LedgerCore for Accounts {
    ghost use Rattle.satp_accounts.specs.Books.{book_of};

    ghost book = { book_of };

    const KIND: LedgerKind = LedgerKind::Accounts;

    ghost use Rattle.satp_base.specs.declared.ledger.LedgerKind.TheVariants as kind;

    ghost KIND = { kind.Accounts };

    fn begin(alloc: Global, genesis: &Genesis) -> Result<Accounts, Memory> {
        let amounts = first_amounts(alloc, genesis)?;
        let genesis = genesis.copy(alloc)?;
        Ok(Accounts {
            genesis,
            entries: BTreeMap::new(alloc),
            amounts,
        })
    }

    fn apply(
        &mut self,
        op: LedgerOp,
        session: SessionId,
        terms: &Terms,
    ) -> Result<Answer, CoreFault> {
        let (entry, kept) = standing_in(&self.entries, session, *terms);
        match op {
            LedgerOp::Lock => self.lock(session, entry, *terms),
            LedgerOp::Mint => self.mint(session, entry, *terms),
            op => self.finish(op, session, entry, kept),
        }
    }

    fn entry(&self, session: SessionId) -> Entry {
        entry_in(&self.entries, session)
    }

    fn free(&self, asset: Name, owner: Name) -> u64 {
        self.amount(Owned { asset, owner })
    }

    fn free_sum(&self, asset: Name) -> u64 {
        self.free_sum_of(asset)
    }

    fn total(&self, asset: Name) -> u64 {
        self.total_of(asset)
    }

    ghost use Rattle.satp_money.proofs.Moves as moves;

    ghost sound = { λ core. moves.sound (book_of core) _ _ core.agrees };
}
