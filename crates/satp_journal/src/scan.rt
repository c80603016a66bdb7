ghost use Rattle.std.specs.Prelude.{◌≡◌, ◌≤◌, ◌<◌, ◌+◌, length, IfOk, MatchResult, MatchOption};
ghost use Rattle.satp_base.specs.Format.{NoRecord, SplitsOff};
ghost use Rattle.satp_journal.specs.Listing.{IsUnread};
ghost use Rattle.satp_journal.specs.Scanned.{IsScanned};

use crate::fault::Unread;
use crate::stock::Stock;
use std::alloc::Global;

/// The value of an open gate.
pub const OPEN: u8 = 1;

/// The payloads of an image, and the place of the closed gate behind them.
#[derive(Drop)]
pub struct Scanned {
    pub stock: Stock,
    pub gate: usize,
}

/// The list that an image stands for, with room for so many further payloads, and for so many bytes of them together.
pub fn scan_with_room(
    alloc: Global,
    image: &[u8],
    records: usize,
    bytes: usize,
) -> Result<Scanned, Unread>
    ensures list { MatchResult result (IsScanned image.now) (IsUnread image.now) }
    ensures records { IfOk result (λ found. records ≤ found.stock.spare_records) }
    ensures bytes { IfOk result (λ found. bytes ≤ found.stock.spare_bytes) }
{
    let Scanned { mut stock, gate } = match scan(alloc, image) {
        Ok(found) => found,
        Err(unread) => return Err(unread),
    };
    match stock.reserve(records, bytes) {
        Ok(()) => Ok(Scanned { stock, gate }),
        Err(_) => Err(Unread::Memory),
    }
}

/// The list that an image stands for.
pub fn scan(alloc: Global, image: &[u8]) -> Result<Scanned, Unread>
    ensures { MatchResult result (IsScanned image.now) (IsUnread image.now) }
{
    let mut stock = Stock::new(alloc);
    let mut rest = image;
    let mut gate = 0;
    if image.len() > 1 {
        while let [first, behind @ ..] = rest {
            if *first != OPEN {
                break;
            }
            let Some((payload, tail)) = first_record(behind) else {
                return Err(Unread::Damaged {
                    at: gate as u64,
                    index: stock.len(),
                });
            };
            stock.reserve(1, payload.len())?;
            stock.push(payload);
            gate += 3 + payload.len();
            rest = tail;
        }
    }
    Ok(Scanned { stock, gate })
}

/// The payload behind an open gate and what stands behind it, where the record and a byte behind it are there.
pub fn first_record(behind: &[u8]) -> Option<(&[u8], &[u8])>
    ensures { MatchOption result (NoRecord behind.now) (λ r. SplitsOff behind.now r.0.now r.1.now) }
{
    let [high, low, after @ ..] = behind else {
        return None;
    };
    let size = usize::from(*high) * 256 + usize::from(*low);
    if size >= 1 && size <= 4096 && size < after.len() {
        Some((&after[..size], &after[size..]))
    } else {
        None
    }
}
