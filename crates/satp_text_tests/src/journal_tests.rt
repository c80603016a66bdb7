use satp_base::Area;
use satp_journal::{Journal, JournalFault};
use satp_memory::MemDisk;
use std::alloc::Global;

/// Whether the journal holds `abc`, `d` and nothing else.
fn has_both(journal: &Journal) -> bool {
    journal.count() == 2
        && is_at(journal, 0, b"abc")
        && is_at(journal, 1, b"d")
        && journal.payload(2).is_none()
}

fn is_at(journal: &Journal, index: usize, wanted: &[u8]) -> bool {
    match journal.payload(index) {
        Some(payload) => payload == wanted,
        None => false,
    }
}

fn opens_with_both(alloc: Global, disk: &mut MemDisk) -> bool {
    match Journal::open(alloc, disk, Area::JournalA) {
        Ok(journal) => has_both(&journal),
        Err(_) => false,
    }
}

fn appends_both(alloc: Global, disk: &mut MemDisk) -> bool {
    match Journal::open(alloc, disk, Area::JournalA) {
        Ok(mut journal) => {
            let is_reserved = journal.reserve(2, 4).is_ok();
            let first = journal.append(disk, b"abc");
            let second = journal.append(disk, b"d");
            is_reserved && first.is_ok() && second.is_ok() && has_both(&journal)
        }
        Err(_) => false,
    }
}

fn is_kept(alloc: Global) -> bool {
    match MemDisk::new(alloc) {
        Ok(mut disk) => appends_both(alloc, &mut disk) && opens_with_both(alloc, &mut disk),
        Err(_) => false,
    }
}

#[test]
fn a_journal_is_opened_appended_to_and_opened_again(rt: HostRuntime) {
    assert!(rt; is_kept(rt.alloc()));
}

/// What an opening answers, and then two appends, where this call of the disk fails.
fn answers(alloc: Global, disk: &mut MemDisk) -> [Option<JournalFault>; 3] {
    match Journal::open(alloc, disk, Area::JournalB) {
        Ok(mut journal) => {
            let first = journal.append(disk, b"abc");
            let second = journal.append(disk, b"abc");
            [None, first.err(), second.err()]
        }
        Err(fault) => [Some(fault), None, None],
    }
}

fn answers_after(
    alloc: Global,
    disk: &mut MemDisk,
    call: u64,
) -> Option<[Option<JournalFault>; 3]> {
    match disk.fail(call) {
        Ok(()) => Some(answers(alloc, disk)),
        Err(_) => None,
    }
}

fn failing(alloc: Global, call: u64) -> Option<[Option<JournalFault>; 3]> {
    match MemDisk::new(alloc) {
        Ok(mut disk) => answers_after(alloc, &mut disk, call),
        Err(_) => None,
    }
}

/// The calls of an opening of an empty area are 1 to 5, and those of the first append 6 to 9. A journal is broken after
/// an append that failed.
#[test]
fn each_failing_call_is_answered(rt: HostRuntime) {
    let alloc = rt.alloc();
    let unopened = Some([Some(JournalFault::Disk), None, None]);
    let broken = Some([None, Some(JournalFault::Disk), Some(JournalFault::Broken)]);
    let others = (
        (1..6).find(|call| failing(alloc, *call) != unopened),
        (6..10).find(|call| failing(alloc, *call) != broken),
    );
    assert_eq!(rt; others, (None, None));
}
