ghost use Rattle.std.specs.Prelude.{◌≡◌};
ghost use Rattle.satp_base.specs.Founding.{equal_names};
ghost use Rattle.satp_base.specs.LedgerRule.{result_of};
ghost use Rattle.satp_base.specs.Money.{is_pledged, pledged};
ghost use Rattle.satp_money.specs.Steps.{is_giving, is_still, receiver};

use crate::owned::Owned;
use satp_base::{Entry, LedgerEntry, LedgerOp, Name, Terms};

/// Two names are one.
pub fn are_equal(a: Name, b: Name) -> bool
    ensures { result ≡ equal_names a b }
{
    b == a
}

/// The amount of such an entry is there, and no owner is free to use it.
fn is_pledged(entry: Entry) -> bool
    ensures { result ≡ is_pledged entry }
{
    matches!(entry, Entry::Locked | Entry::Minted)
}

/// What an entry adds to what is locked or minted of an asset.
pub fn pledged_part(asset: Name, kept: LedgerEntry) -> u64
    ensures { result ≡ pledged asset kept }
{
    if is_pledged(kept.entry) && are_equal(asset, kept.terms.asset) {
        kept.terms.amount.get()
    } else {
        0
    }
}

/// The operation moves the entry and leaves what owners are free to use.
pub fn is_still(op: LedgerOp, entry: Entry) -> bool
    ensures { result ≡ is_still op entry }
{
    match op {
        LedgerOp::Burn => entry == Entry::Locked,
        LedgerOp::Mint => entry == Entry::Absent,
        LedgerOp::Release => matches!(entry, Entry::Absent | Entry::Minted),
        _ => false,
    }
}

/// The operation moves the entry, and its amount comes to an owner.
pub fn is_giving(op: LedgerOp, entry: Entry) -> bool
    ensures { result ≡ is_giving op entry }
{
    match op {
        LedgerOp::Assign => entry == Entry::Minted,
        LedgerOp::Release => entry == Entry::Locked,
        _ => false,
    }
}

/// Whom the amount comes to.
pub fn receiver(op: LedgerOp, terms: Terms) -> Owned
    ensures { result ≡ receiver op terms }
{
    let owner = match op {
        LedgerOp::Assign => terms.beneficiary,
        _ => terms.originator,
    };
    Owned {
        asset: terms.asset,
        owner,
    }
}

/// The entry that an operation leads to.
pub fn result_of(op: LedgerOp) -> Entry
    ensures { result ≡ result_of op }
{
    match op {
        LedgerOp::Lock => Entry::Locked,
        LedgerOp::Burn => Entry::Burnt,
        LedgerOp::Mint => Entry::Minted,
        LedgerOp::Assign => Entry::Assigned,
        LedgerOp::Release => Entry::Released,
    }
}
