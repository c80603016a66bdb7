ghost use Rattle.std.specs.Prelude.{◌≡◌, ◌+◌, ◌≤◌};
ghost use Rattle.std.specs.FinMap as map;
ghost use Rattle.satp_base.specs.Founding.{most_holds};
ghost use Rattle.satp_base.specs.Money.{sum_entries};
ghost use Rattle.satp_money.specs.Amounts.{Agrees};
ghost use Rattle.satp_outputs.specs.Steps.{most_made};
ghost use Rattle.satp_outputs.specs.Unspent.{asset_sum, own_sum};

use crate::begin::first_outputs;
use crate::output::Output;
use crate::unspent::{Taking, UnspentMap};
use satp_base::{
    Answer, CoreFault, Entry, Genesis, LedgerCore, LedgerEntry, LedgerKind, LedgerOp, Memory, Name,
    SessionId, Terms,
};
use satp_money::{
    Owned, entry_in, is_giving, is_still, pledged_in, receiver, result_of, standing_in,
};
use std::alloc::Global;
use std::collections::BTreeMap;

/// A ledger that keeps unspent outputs.
///
/// The holdings of the genesis are outputs 1, 2 and so on, and each new output takes the next number.
/// A lock takes the originator's outputs of the asset in ascending order until they suffice, and makes one of the change.
#[derive(Drop)]
pub struct Outputs {
    genesis: Genesis,
    entries: BTreeMap<SessionId, LedgerEntry>,
    unspent: UnspentMap,
    pub ghost agrees: { Agrees
        (record { genesis = genesis; entries = map.from_entries entries.entries })
        (own_sum unspent.outputs.entries) (asset_sum unspent.outputs.entries) },
    pub ghost numbers: { unspent.next ≤ 1 + most_holds + sum_entries most_made (map.from_entries entries.entries) },
}

impl Outputs {
    ghost use Rattle.std.specs.Prelude.{◌≡◌, ◌⊎◌, ◌+◌, ◌≤◌, ◌<◌, ◌^◌, true, false, OnOk, OnErr};
    ghost use Rattle.satp_base.specs.LedgerRule.{entry_of, is_always_answered, leads, terms_of};
    ghost use Rattle.satp_base.specs.Acts.{Applies};
    ghost use Rattle.satp_base.specs.Money.{free_of, free_sum_of, total_of};
    ghost use Rattle.satp_base.specs.declared.ledger.Entry.TheVariants.{Absent};
    ghost use Rattle.satp_base.specs.declared.ledger.LedgerOp.TheVariants.{Lock, Mint};
    ghost use Rattle.satp_money.specs.Steps.{Ends, FitsCap, is_giving, is_still, receiver, with_result};
    ghost use Rattle.satp_outputs.specs.States.{book_of, unspent_of};
    ghost use Rattle.satp_outputs.specs.Steps.{EndsAt, Leaves};
    ghost use Rattle.satp_outputs.specs.Unspent.{output_at, own_sum, stepped};

    /// The output of a number; none where it never was, or was taken.
    pub fn output(&self, number: u128) -> Option<Output>
        ensures { result ≡ output_at (unspent_of self.now) number }
    {
        self.unspent.get(number)
    }

    /// The next number is far from the greatest, since an entry makes two outputs at most.
    fn count_numbers(&self)
        ensures { (unspent_of self.now).next < 2 ^ 66 }
    {
        let entries = self.entries.len();
        prove!(entries < 1 << 63);
    }

    /// What is free of an owner.
    fn amount(&self, asset: Name, owner: Name) -> u64
        ensures free { result ≡ free_of (book_of self.now) asset owner }
        ensures outputs { result ≡ own_sum (unspent_of self.now).outputs asset owner }
    {
        self.unspent.own_sum(asset, owner)
    }

    /// Puts the operation's result as the session's entry, where no output changes.
    fn put(&mut self, op: LedgerOp, session: SessionId, terms: Terms) -> Result<(), Memory>
        requires still { is_still op (entry_of (book_of self.old).entries session) ≡ true }
        requires terms { terms ≡ terms_of (book_of self.old).entries session terms }
        requires fits { FitsCap (book_of self.old) op terms }
        ensures ok { OnOk result (book_of self.new ≡ with_result (book_of self.old) op session terms) }
        ensures err { OnErr result (book_of self.new ≡ book_of self.old) }
        ensures outputs { unspent_of self.new ≡ unspent_of self.old }
    {
        let entry = result_of(op);
        match self.entries.insert(session, LedgerEntry { entry, terms }) {
            Ok(_) => Ok(()),
            Err(_) => Err(Memory),
        }
    }

    /// Puts the operation's result as the session's entry, and makes an output of whom the amount comes to.
    fn give(
        &mut self,
        op: LedgerOp,
        session: SessionId,
        terms: Terms,
        owned: Owned,
    ) -> Result<(), Memory>
        requires giving { is_giving op (entry_of (book_of self.old).entries session) ≡ true }
        requires terms { terms ≡ terms_of (book_of self.old).entries session terms }
        requires receiver { owned ≡ receiver op terms }
        ensures ok { OnOk result (book_of self.new ≡ with_result (book_of self.old) op session terms) }
        ensures err { OnErr result (book_of self.new ≡ book_of self.old) }
        ensures outputs { OnOk result (unspent_of self.new ≡ stepped op (entry_of (book_of self.old).entries session) terms (unspent_of self.old)) }
        ensures none { OnErr result (unspent_of self.new ≡ unspent_of self.old) }
    {
        self.count_numbers();
        let entry = result_of(op);
        self.unspent.add(Output {
            asset: owned.asset,
            owner: owned.owner,
            amount: terms.amount.get(),
        })?;
        if self
            .entries
            .insert(session, LedgerEntry { entry, terms })
            .is_err()
        {
            unreachable!();
        }
        Ok(())
    }

    /// Locks an amount by the outputs up to where its taking ends.
    ///
    /// All memory is found before an output is taken away.
    fn take(&mut self, session: SessionId, terms: Terms, taking: Taking) -> Result<(), Memory>
        requires none { entry_of (book_of self.old).entries session ≡ Absent }
        requires ends { EndsAt (unspent_of self.old).outputs terms.asset terms.originator terms.amount.number taking.last taking.rest }
        ensures ok { OnOk result (book_of self.new ≡ with_result (book_of self.old) Lock session terms) }
        ensures err { OnErr result (book_of self.new ≡ book_of self.old) }
        ensures outputs { OnOk result (unspent_of self.new ≡ stepped Lock Absent terms (unspent_of self.old)) }
        ensures none { OnErr result (unspent_of self.new ≡ unspent_of self.old) }
    {
        self.count_numbers();
        let entry = Entry::Locked;
        self.unspent
            .add_change(terms.asset, terms.originator, taking.rest)?;
        if self
            .entries
            .insert(session, LedgerEntry { entry, terms })
            .is_err()
        {
            self.unspent.drop_change(taking.rest);
            return Err(Memory);
        }
        self.unspent
            .remove_to(terms.asset, terms.originator, taking.last);
        Ok(())
    }

    /// Locks an amount, or says why not.
    fn lock(&mut self, session: SessionId, entry: Entry, terms: Terms) -> Result<Answer, CoreFault>
        requires entry { entry ≡ entry_of (book_of self.old).entries session }
        ensures rule { Applies Lock session terms (book_of self.old) result (book_of self.new) }
        ensures outputs { Leaves Lock entry terms (unspent_of self.old) result (unspent_of self.new) }
    {
        match entry {
            Entry::Absent => self.lock_new(session, terms),
            Entry::Locked => Ok(Answer::Done),
            entry => Ok(Answer::Taken { entry }),
        }
    }

    /// Locks an amount of a session without an entry.
    fn lock_new(&mut self, session: SessionId, terms: Terms) -> Result<Answer, CoreFault>
        requires none { entry_of (book_of self.old).entries session ≡ Absent }
        ensures rule { Applies Lock session terms (book_of self.old) result (book_of self.new) }
        ensures outputs { Leaves Lock Absent terms (unspent_of self.old) result (unspent_of self.new) }
    {
        let free = self.amount(terms.asset, terms.originator);
        let taking = self
            .unspent
            .taking(terms.asset, terms.originator, terms.amount.get());
        let Some(taking) = taking else {
            return Ok(Answer::NoFunds { free });
        };
        match self.take(session, terms, taking) {
            Ok(()) => Ok(Answer::Done),
            Err(Memory) => Err(CoreFault::Memory),
        }
    }

    /// Mints an amount, or says why not.
    fn mint(&mut self, session: SessionId, entry: Entry, terms: Terms) -> Result<Answer, CoreFault>
        requires entry { entry ≡ entry_of (book_of self.old).entries session }
        ensures rule { Applies Mint session terms (book_of self.old) result (book_of self.new) }
        ensures outputs { unspent_of self.new ≡ unspent_of self.old }
    {
        match entry {
            Entry::Absent => self.mint_new(session, terms),
            Entry::Minted => Ok(Answer::Done),
            entry => Ok(Answer::Taken { entry }),
        }
    }

    /// Mints an amount of a session without an entry.
    fn mint_new(&mut self, session: SessionId, terms: Terms) -> Result<Answer, CoreFault>
        requires none { entry_of (book_of self.old).entries session ≡ Absent }
        ensures rule { Applies Mint session terms (book_of self.old) result (book_of self.new) }
        ensures outputs { unspent_of self.new ≡ unspent_of self.old }
    {
        let Some(cap) = self.genesis.cap(terms.asset) else {
            return Ok(Answer::UnknownAsset);
        };
        let total = self.total_of(terms.asset);
        if total + terms.amount.get() > cap.get() {
            return Ok(Answer::Capped { total });
        }
        match self.put(LedgerOp::Mint, session, terms) {
            Ok(()) => Ok(Answer::Done),
            Err(Memory) => Err(CoreFault::Memory),
        }
    }

    /// Burns, assigns or releases, under the terms that hold for the session.
    fn finish(
        &mut self,
        op: LedgerOp,
        session: SessionId,
        entry: Entry,
        terms: Terms,
    ) -> Result<Answer, CoreFault>
        requires op { is_always_answered op ≡ false }
        requires entry { entry ≡ entry_of (book_of self.old).entries session }
        requires terms { terms ≡ terms_of (book_of self.old).entries session terms }
        ensures rule { Ends (book_of self.old) entry op session terms result (book_of self.new) }
        ensures outputs { Leaves op entry terms (unspent_of self.old) result (unspent_of self.new) }
    {
        if entry == result_of(op) {
            return Ok(Answer::Done);
        }
        let moved = if is_still(op, entry) {
            self.put(op, session, terms)
        } else if is_giving(op, entry) {
            self.give(op, session, terms, receiver(op, terms))
        } else {
            return Err(CoreFault::OutOfOrder { entry });
        };
        match moved {
            Ok(()) => Ok(Answer::Done),
            Err(Memory) => Err(CoreFault::Memory),
        }
    }

    /// What all owners of an asset are free to use.
    fn free_sum_of(&self, asset: Name) -> u64
        ensures { result ≡ free_sum_of (book_of self.now) asset }
    {
        self.unspent.asset_sum(asset)
    }

    /// How much of an asset there is.
    fn total_of(&self, asset: Name) -> u64
        ensures { result ≡ total_of (book_of self.now) asset }
    {
        self.free_sum_of(asset) + pledged_in(&self.entries, asset)
    }
}

impl LedgerCore for Outputs {
    ghost use Rattle.std.specs.Prelude.{◌≡◌, IfOk};
    ghost use Rattle.satp_base.specs.Acts.{Applies, founded};
    ghost use Rattle.satp_base.specs.LedgerRule.{entry_of, terms_of};
    ghost use Rattle.satp_base.specs.Money.{free_of};
    ghost use Rattle.satp_outputs.specs.States.{book_of, unspent_of};
    ghost use Rattle.satp_outputs.specs.Steps.{Leaves};
    ghost use Rattle.satp_outputs.specs.Unspent.{first_unspent, own_sum};

    ghost book = { book_of };

    const KIND: LedgerKind = LedgerKind::Outputs;

    ghost use Rattle.satp_base.specs.declared.ledger.LedgerKind.TheVariants as kind;

    ghost KIND = { kind.Outputs };

    fn begin(alloc: Global, genesis: &Genesis) -> Result<Outputs, Memory>
        ensures book { IfOk result (λ core. book_of core ≡ founded genesis.now) }
        ensures outputs { IfOk result (λ core. unspent_of core ≡ first_unspent genesis.now.holds) }
    {
        let unspent = first_outputs(alloc, genesis)?;
        let genesis = genesis.copy(alloc)?;
        Ok(Outputs {
            genesis,
            entries: BTreeMap::new(alloc),
            unspent,
        })
    }

    fn apply(
        &mut self,
        op: LedgerOp,
        session: SessionId,
        terms: &Terms,
    ) -> Result<Answer, CoreFault>
        ensures rule { Applies op session terms.now (book_of self.old) result (book_of self.new) }
        ensures outputs { Leaves op (entry_of (book_of self.old).entries session) (terms_of (book_of self.old).entries session terms.now) (unspent_of self.old) result (unspent_of self.new) }
    {
        let (entry, kept) = standing_in(&self.entries, session, *terms);
        match op {
            LedgerOp::Lock => self.lock(session, entry, *terms),
            LedgerOp::Mint => self.mint(session, entry, *terms),
            op => self.finish(op, session, entry, kept),
        }
    }

    fn entry(&self, session: SessionId) -> Entry {
        entry_in(&self.entries, session)
    }

    fn free(&self, asset: Name, owner: Name) -> u64
        ensures free { result ≡ free_of (book_of self.now) asset owner }
        ensures outputs { result ≡ own_sum (unspent_of self.now).outputs asset owner }
    {
        self.amount(asset, owner)
    }

    fn free_sum(&self, asset: Name) -> u64 {
        self.free_sum_of(asset)
    }

    fn total(&self, asset: Name) -> u64 {
        self.total_of(asset)
    }

    ghost use Rattle.satp_money.proofs.Moves as moves;

    ghost sound = { λ core. moves.sound (book_of core) _ _ core.agrees };
}
