ghost use Rattle.std.specs.Prelude.{◌≡◌, ◌≤◌, false, length};
ghost use Rattle.satp_journal.specs.State.{Fits};

use satp_base::{Area, Disk};
use satp_journal::{Journal, JournalFault};
use satp_memory::MemDisk;
use std::alloc::Global;

/// A journal on its disk.
#[derive(Drop)]
struct Written<D: Disk> {
    disk: D,
    journal: Journal,
    ghost fits: { journal.held.broken ≡ false → Fits journal.held (D.told disk) },
}

impl<D: Disk> Written<D> {
    fn append(&mut self, payload: &[u8]) -> Result<(), JournalFault>
        requires least { 1 ≤ length payload.now }
        requires most { length payload.now ≤ 4096 }
    {
        self.journal.append(&mut self.disk, payload)
    }

    /// Appends the number of each record as two bytes; whether each was appended.
    fn append_all(&mut self) -> bool {
        for number in 0..2000_u16 {
            let payload = [(number / 256) as u8, (number % 256) as u8];
            if self.append(&payload).is_err() {
                return false;
            }
        }
        true
    }
}

/// The disk after two thousand appends.
fn filled<D: Disk + Drop>(alloc: Global, disk: D) -> Option<D> {
    let mut disk = disk;
    let journal = Journal::open(alloc, &mut disk, Area::JournalA).ok()?;
    let mut written = Written { disk, journal };
    let all = written.append_all();
    let Written { disk, .. } = written;
    if all { Some(disk) } else { None }
}

fn is_at(journal: &Journal, index: usize, expected: &[u8; 2]) -> bool {
    match journal.payload(index) {
        Some(payload) => payload == expected.as_slice(),
        None => false,
    }
}

/// How many payloads an opening finds, and whether three of them are their numbers.
fn opened(alloc: Global, disk: &mut MemDisk) -> Option<(usize, [bool; 3])> {
    let journal = Journal::open(alloc, disk, Area::JournalA).ok()?;
    let found = [
        is_at(&journal, 0, &[0, 0]),
        is_at(&journal, 300, &[1, 44]),
        is_at(&journal, 1999, &[7, 207]),
    ];
    Some((journal.count(), found))
}

fn opened_again(alloc: Global) -> Option<(usize, [bool; 3])> {
    let mut disk = filled(alloc, MemDisk::new(alloc).ok()?)?;
    opened(alloc, &mut disk)
}

#[test]
fn a_long_journal_is_opened_again(rt: HostRuntime) {
    assert!(rt; opened_again(rt.alloc()) == Some((2000, [true; 3])));
}
