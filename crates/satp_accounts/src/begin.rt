ghost use Rattle.std.specs.Prelude.{IfOk, OnOk};
ghost use Rattle.std.specs.FinMap as map;
ghost use Rattle.satp_base.specs.Genesis.{IsGenesis};
ghost use Rattle.satp_accounts.specs.Owners.{HoldAdds, HoldFits, IsHeld};

use satp_base::{Amount, Genesis, Memory, Name};
use satp_money::Owned;
use std::alloc::Global;
use std::collections::BTreeMap;

/// Adds a holding, if there is one, to what its owner has.
fn add_hold(
    amounts: &mut BTreeMap<Owned, u64>,
    hold: Option<(Name, Name, Amount)>,
) -> Result<(), Memory>
    requires fits { HoldFits (map.from_entries amounts.old.entries) hold }
    ensures { OnOk result (HoldAdds (map.from_entries amounts.old.entries) hold (map.from_entries amounts.new.entries)) }
{
    let Some((asset, owner, amount)) = hold else {
        return Ok(());
    };
    let owned = Owned { asset, owner };
    let before: u64 = amounts.get(&owned).copied().unwrap_or(0);
    if amounts.insert(owned, before + amount.get()).is_err() {
        return Err(Memory);
    }
    Ok(())
}

/// What each owner has at first.
pub(crate) fn first_amounts(
    alloc: Global,
    genesis: &Genesis,
) -> Result<BTreeMap<Owned, u64>, Memory>
    ensures amounts { IfOk result (λ amounts. IsHeld genesis.now.holds (map.from_entries amounts.entries)) }
    ensures valid { OnOk result (IsGenesis genesis.now) }
{
    let mut amounts = BTreeMap::new(alloc);
    for index in 0..Genesis::HOLDS {
        add_hold(&mut amounts, genesis.hold_at(index))?;
    }
    Ok(amounts)
}
