ghost use Rattle.std.specs.Prelude.{◌≡◌, ◌<◌, ◌≤◌, ◌^◌, IfOk, OnErr, OnOk};
ghost use Rattle.satp_base.specs.Genesis.{IsGenesis};
ghost use Rattle.satp_outputs.specs.States.{unspent_in};
ghost use Rattle.satp_outputs.specs.Steps.{with_hold};
ghost use Rattle.satp_outputs.specs.Unspent.{first_unspent};

use crate::output::Output;
use crate::unspent::UnspentMap;
use satp_base::{Amount, Genesis, Memory, Name};
use std::alloc::Global;

/// Adds a holding, if there is one, as an output.
fn add_hold(unspent: &mut UnspentMap, hold: Option<(Name, Name, Amount)>) -> Result<(), Memory>
    requires room { unspent.old.next < 2 ^ 127 }
    ensures { OnOk result (unspent_in unspent.new ≡ with_hold (unspent_in unspent.old) hold) }
{
    if let Some((asset, owner, amount)) = hold {
        unspent.add(Output {
            asset,
            owner,
            amount: amount.get(),
        })?;
    }
    Ok(())
}

/// The outputs of a genesis's holdings.
pub(crate) fn first_outputs(alloc: Global, genesis: &Genesis) -> Result<UnspentMap, Memory>
    ensures outputs { IfOk result (λ unspent. unspent_in unspent ≡ first_unspent genesis.now.holds) }
    ensures valid { OnOk result (IsGenesis genesis.now) }
{
    let mut unspent = UnspentMap::new(alloc);
    for index in 0..Genesis::HOLDS {
        add_hold(&mut unspent, genesis.hold_at(index))?;
    }
    Ok(unspent)
}
