use satp_base::Area;
use satp_journal::Journal;
use satp_memory::MemDisk;
use std::alloc::Global;

/// The opening of an empty area makes 3 events, a sync and then a write and a sync of a closed gate; an append makes 4, a write and a sync of the record and then of its gate.
const BEFORE: u64 = 7;

/// The bytes of a record are written as the first event of its append and synced as the second; its gate is written as the third and synced as the fourth.
/// So after four events the record is there, and after three where the gate reads 1.
fn is_stored(events: u64, pick: u32) -> bool {
    events == 4 || (events == 3 && pick % 256 == 1)
}

/// Two appends to a journal, and whether the second succeeds.
fn append_two(alloc: Global, disk: &mut MemDisk) -> Option<bool> {
    let mut journal = Journal::open(alloc, disk, Area::JournalA).ok()?;
    journal.append(disk, b"abc").ok()?;
    Some(journal.append(disk, b"xy").is_ok())
}

/// Opens the journal and appends to it, and whether two records were there.
fn go_on(alloc: Global, disk: &mut MemDisk) -> Option<bool> {
    let mut journal = Journal::open(alloc, disk, Area::JournalA).ok()?;
    let there = journal.count() == 2;
    journal.append(disk, b"d").ok()?;
    Some(there)
}

/// The journal holds `abc`, then `xy` where the stopped append is there, then `d`, and nothing else.
fn holds(journal: &Journal, there: bool) -> bool {
    if there {
        is_at(journal, 0, b"abc")
            && is_at(journal, 1, b"xy")
            && is_at(journal, 2, b"d")
            && journal.count() == 3
    } else {
        is_at(journal, 0, b"abc") && is_at(journal, 1, b"d") && journal.count() == 2
    }
}

fn is_at(journal: &Journal, index: usize, expected: &[u8]) -> bool {
    match journal.payload(index) {
        Some(payload) => payload == expected,
        None => false,
    }
}

fn opens_as(alloc: Global, disk: &mut MemDisk, there: bool) -> bool {
    match Journal::open(alloc, disk, Area::JournalA) {
        Ok(journal) => holds(&journal, there),
        Err(_) => false,
    }
}

/// Appends to a journal of one record, which stops after so many events; then opens, appends and opens again.
/// Answers whether the record of the stopped append is there, or none where anything else isn't as it should be.
fn is_there(alloc: Global, disk: &mut MemDisk, events: u64, pick: u32) -> Option<bool> {
    disk.stop_at(BEFORE.saturating_add(events), pick);
    if append_two(alloc, disk)? != (events == 4) {
        return None;
    }
    disk.restart().ok()?;
    let there = go_on(alloc, disk)?;
    if opens_as(alloc, disk, there) {
        Some(there)
    } else {
        None
    }
}

fn is_there_on_a_new_disk(alloc: Global, events: u64, pick: u32) -> Option<bool> {
    match MemDisk::new(alloc) {
        Ok(mut disk) => is_there(alloc, &mut disk, events, pick),
        Err(_) => None,
    }
}

#[test]
fn an_append_that_stops_leaves_the_list_before_or_after(rt: HostRuntime) {
    for pick in [0, 1, 7, 255, 257] {
        for events in 0..5 {
            let there = is_there_on_a_new_disk(rt.alloc(), events, pick);
            assert!(rt;
                there == Some(is_stored(events, pick)),
                "after {events} with {pick}"
            );
        }
    }
}
