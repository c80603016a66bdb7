ghost use Rattle.std.specs.Prelude.{◌≡◌, ◌<◌, All};
ghost use Rattle.satp_outputs.specs.Unspent.{is_own};

use crate::output::Output;
use satp_base::{Memory, Name};
use satp_money::are_equal;
use std::alloc::Global;
use std::collections::BTreeMap;

/// The outputs that stand, by their numbers, and the number that the next one takes.
#[derive(Drop)]
pub(crate) struct UnspentMap {
    outputs: BTreeMap<u128, Output>,
    next: u128,
    pub ghost below: { All (λ e. e.0 < next) outputs.entries },
}

/// Where the taking of an amount ends: at the last output that is taken, which leaves a rest.
#[derive(Clone, Copy)]
pub(crate) struct Taking {
    pub(crate) last: u128,
    pub(crate) rest: u64,
}

/// The output is the owner's, and of the asset.
fn is_own(asset: Name, owner: Name, output: Output) -> bool
    ensures { result ≡ is_own asset owner output }
{
    are_equal(asset, output.asset) && are_equal(owner, output.owner)
}

impl UnspentMap {
    ghost use Rattle.std.specs.Prelude.{◌≡◌, ◌<◌, ◌≤◌, ◌+◌, ◌^◌, [], IfSome, None, OnErr, OnOk};
    ghost use Rattle.satp_base.specs.Numbers.{greatest_amount};
    ghost use Rattle.satp_base.specs.declared.name.Name.{Name};
    ghost use Rattle.satp_outputs.specs.States.{unspent_in};
    ghost use Rattle.satp_outputs.specs.Steps.{EndsAt, above};
    ghost use Rattle.satp_outputs.specs.Unspent.{Unspent, asset_sum, output_at, own_sum, with_change, with_output};

    /// No output; the first takes number 1.
    pub(crate) fn new(alloc: Global) -> UnspentMap
        ensures { unspent_in result ≡ record { outputs = []; next = 1 } }
    {
        UnspentMap {
            outputs: BTreeMap::new(alloc),
            next: 1,
        }
    }

    /// The output of a number, if it stands.
    pub(crate) fn get(&self, number: u128) -> Option<Output>
        ensures { result ≡ output_at (unspent_in self.now) number }
    {
        self.outputs.get(&number).copied()
    }

    /// One more output, under the next number.
    pub(crate) fn add(&mut self, output: Output) -> Result<(), Memory>
        requires room { self.old.next < 2 ^ 127 }
        ensures ok { OnOk result (unspent_in self.new ≡ with_output (unspent_in self.old) output) }
        ensures err { OnErr result (unspent_in self.new ≡ unspent_in self.old) }
    {
        if self.outputs.insert(self.next, output).is_err() {
            return Err(Memory);
        }
        self.next += 1;
        Ok(())
    }

    /// The change of a lock, where it isn't 0.
    pub(crate) fn add_change(&mut self, asset: Name, owner: Name, rest: u64) -> Result<(), Memory>
        requires room { self.old.next < 2 ^ 127 }
        ensures ok { OnOk result (unspent_in self.new ≡ with_change (unspent_in self.old) asset owner rest) }
        ensures err { OnErr result (unspent_in self.new ≡ unspent_in self.old) }
    {
        if rest == 0 {
            return Ok(());
        }
        self.add(Output {
            asset,
            owner,
            amount: rest,
        })
    }

    /// Takes the change of a lock away again, with its number.
    pub(crate) fn drop_change(&mut self, rest: u64)
        ensures { (u : Unspent) (asset owner : Name) → unspent_in self.old ≡ with_change u asset owner rest → unspent_in self.new ≡ u }
    {
        if rest != 0 && self.outputs.pop_last().is_some() {
            self.next -= 1;
        }
    }

    /// Takes an owner's outputs up to a number away.
    pub(crate) fn remove_to(&mut self, asset: Name, owner: Name, last: u128)
        ensures { unspent_in self.new ≡ above (unspent_in self.old) asset owner last }
    {
        self.outputs.retain(|number, output| *number > last || !is_own(asset, owner, *output));
    }

    /// Where the taking of an amount ends; none exactly where the owner's outputs don't suffice.
    pub(crate) fn taking(&self, asset: Name, owner: Name, amount: u64) -> Option<Taking>
        requires some { 1 ≤ amount }
        requires fits { own_sum (unspent_in self.now).outputs asset owner ≤ greatest_amount }
        ensures ends { IfSome result (λ taking. EndsAt (unspent_in self.now).outputs asset owner amount taking.last taking.rest) }
        ensures none { result ≡ None → own_sum (unspent_in self.now).outputs asset owner < amount }
    {
        let mut sum = 0;
        for (number, output) in self.outputs.iter() {
            if is_own(asset, owner, *output) {
                sum += output.amount;
                if sum >= amount {
                    return Some(Taking {
                        last: *number,
                        rest: sum - amount,
                    });
                }
            }
        }
        None
    }

    /// What an owner's outputs of an asset come to.
    pub(crate) fn own_sum(&self, asset: Name, owner: Name) -> u64
        requires fits { own_sum (unspent_in self.now).outputs asset owner ≤ greatest_amount }
        ensures { result ≡ own_sum (unspent_in self.now).outputs asset owner }
    {
        let mut sum = 0;
        for (_, output) in self.outputs.iter() {
            if is_own(asset, owner, *output) {
                sum += output.amount;
            }
        }
        sum
    }

    /// What all owners' outputs of an asset come to.
    pub(crate) fn asset_sum(&self, asset: Name) -> u64
        requires fits { asset_sum (unspent_in self.now).outputs asset ≤ greatest_amount }
        ensures { result ≡ asset_sum (unspent_in self.now).outputs asset }
    {
        let mut sum = 0;
        for (_, output) in self.outputs.iter() {
            if are_equal(asset, output.asset) {
                sum += output.amount;
            }
        }
        sum
    }
}
