ghost use Rattle.std.specs.Prelude.{◌≡◌, ◌≤◌};
ghost use Rattle.std.specs.FinMap as map;
ghost use Rattle.satp_base.specs.LedgerRule.{entry_of, terms_of};
ghost use Rattle.satp_base.specs.Money.{pledged, sum_entries};
ghost use Rattle.satp_base.specs.Numbers.{greatest_amount};

use crate::table::pledged_part;
use satp_base::{Entry, LedgerEntry, Name, SessionId, Terms};
use std::collections::BTreeMap;

/// The entry of a session; `Absent` where it has none.
pub fn entry_in(entries: &BTreeMap<SessionId, LedgerEntry>, session: SessionId) -> Entry
    ensures { result ≡ entry_of (map.from_entries entries.now.entries) session }
{
    match entries.get(&session) {
        Some(kept) => kept.entry,
        None => Entry::Absent,
    }
}

/// The entry of a session, and the terms that hold for it: those given where it has none.
pub fn standing_in(
    entries: &BTreeMap<SessionId, LedgerEntry>,
    session: SessionId,
    terms: Terms,
) -> (Entry, Terms)
    ensures entry { result.0 ≡ entry_of (map.from_entries entries.now.entries) session }
    ensures terms { result.1 ≡ terms_of (map.from_entries entries.now.entries) session terms }
{
    match entries.get(&session).copied() {
        None => (Entry::Absent, terms),
        Some(kept) => match kept.entry {
            Entry::Absent => (Entry::Absent, terms),
            entry => (entry, kept.terms),
        },
    }
}

/// What is locked or minted of an asset.
pub fn pledged_in(entries: &BTreeMap<SessionId, LedgerEntry>, asset: Name) -> u64
    requires fits { sum_entries (pledged asset) (map.from_entries entries.now.entries) ≤ greatest_amount }
    ensures { result ≡ sum_entries (pledged asset) (map.from_entries entries.now.entries) }
{
    let mut sum = 0;
    for (_, kept) in entries.iter() {
        sum += pledged_part(asset, *kept);
    }
    sum
}
