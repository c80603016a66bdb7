use satp_base::{Area, Disk};
use satp_journal::{Journal, JournalFault, Unread, payloads};
use satp_memory::MemDisk;
use std::alloc::Global;

/// What is read from these bytes of an area, how many calls an opening makes, and which bytes it leaves.
struct Opening {
    image: &'static [u8],
    count: usize,
    last: &'static [u8],
    calls: u64,
    left: &'static [u8],
}

/// An opening is a sync, a look at the length and a read. Two calls more write and sync a gate of 0: where there is no byte, and where the gate after the list is neither open nor 0, or the only byte.
const OPENINGS: [Opening; 11] = [
    Opening {
        image: b"",
        count: 0,
        last: b"",
        calls: 5,
        left: b"\x00",
    },
    Opening {
        image: b"\x00",
        count: 0,
        last: b"",
        calls: 3,
        left: b"\x00",
    },
    Opening {
        image: b"\x01",
        count: 0,
        last: b"",
        calls: 5,
        left: b"\x00",
    },
    Opening {
        image: b"\x09",
        count: 0,
        last: b"",
        calls: 5,
        left: b"\x00",
    },
    Opening {
        image: b"\x00\x00\x0b\x06\x05",
        count: 0,
        last: b"",
        calls: 3,
        left: b"\x00\x00\x0b\x06\x05",
    },
    Opening {
        image: b"\x01\x00\x03abc\x00",
        count: 1,
        last: b"abc",
        calls: 3,
        left: b"\x01\x00\x03abc\x00",
    },
    Opening {
        image: b"\x01\x00\x03abc\x07\x00\x01d\x00",
        count: 1,
        last: b"abc",
        calls: 5,
        left: b"\x01\x00\x03abc\x00\x00\x01d\x00",
    },
    Opening {
        image: b"\x01\x00\x03abc\x01\x00\x01d\x00",
        count: 2,
        last: b"d",
        calls: 3,
        left: b"\x01\x00\x03abc\x01\x00\x01d\x00",
    },
    Opening {
        image: b"\x01\x00\x0b\x06\x05alpha\x00\x00\x00\x01\x00",
        count: 1,
        last: b"\x06\x05alpha\x00\x00\x00\x01",
        calls: 3,
        left: b"\x01\x00\x0b\x06\x05alpha\x00\x00\x00\x01\x00",
    },
    Opening {
        image: b"\x01\x00\x01a\x00",
        count: 1,
        last: b"a",
        calls: 3,
        left: b"\x01\x00\x01a\x00",
    },
    Opening {
        image: b"\x02\x01\x00",
        count: 0,
        last: b"",
        calls: 5,
        left: b"\x00\x01\x00",
    },
];

/// Bytes that stand for no list, the place of their damage, and how many payloads stand before it.
const DAMAGED: [(&[u8], u64, usize); 6] = [
    (b"\x01\x00\x03ab", 0, 0),
    (b"\x01\x00\x03abc\x01", 6, 1),
    (b"\x01\x00\x00\x00", 0, 0),
    (b"\x01\x10\x01a", 0, 0),
    (b"\x01\x00\x0b\x06\x05a", 0, 0),
    (b"\x01\x00\x0b\x06\x05alpha\x00\x00\x00\x01", 0, 0),
];

/// The bytes are the area's from now on.
fn lay(disk: &mut MemDisk, image: &[u8]) -> bool {
    disk.write(Area::JournalA, 0, image).is_ok()
}

/// The area reads as these bytes, of which there are at most sixteen.
fn reads_as(disk: &mut MemDisk, bytes: &[u8]) -> bool {
    let mut into = [0; 16];
    match disk.read(Area::JournalA, 0, &mut into) {
        Ok(count) => &into[..count] == bytes,
        Err(_) => false,
    }
}

/// The journal has so many payloads, of which this is the last.
fn ends_with(journal: &Journal, count: usize, last: &[u8]) -> bool {
    match journal.payload(count.saturating_sub(1)) {
        Some(payload) => journal.count() == count && payload == last,
        None => journal.count() == 0 && count == 0,
    }
}

fn opens_with(alloc: Global, disk: &mut MemDisk, count: usize, last: &[u8]) -> bool {
    match Journal::open(alloc, disk, Area::JournalA) {
        Ok(journal) => ends_with(&journal, count, last),
        Err(_) => false,
    }
}

fn fault_of_opening(alloc: Global, disk: &mut MemDisk) -> Option<JournalFault> {
    Journal::open(alloc, disk, Area::JournalA).err()
}

/// Opens the journal and appends to it.
fn append(alloc: Global, disk: &mut MemDisk, payload: &[u8; 2]) -> Result<(), JournalFault> {
    match Journal::open(alloc, disk, Area::JournalA) {
        Ok(mut journal) => journal.append(disk, payload),
        Err(fault) => Err(fault),
    }
}

/// The list of the bytes alone has so many payloads, of which this is the last.
fn lists(alloc: Global, image: &[u8], count: usize, last: &[u8]) -> bool {
    match payloads(alloc, image) {
        Ok(texts) => match texts.get(count.saturating_sub(1)) {
            Some(text) => texts.length() == count && text.bytes() == last,
            None => texts.length() == 0 && count == 0,
        },
        Err(_) => false,
    }
}

/// An opening reads and mends the area, and an append goes on from there: what stood after a closed gate doesn't come back with its record.
fn is_opening(alloc: Global, disk: &mut MemDisk, row: &Opening) -> bool {
    lists(alloc, row.image, row.count, row.last)
        && lay(disk, row.image)
        && opens_with(alloc, disk, row.count, row.last)
        && disk.count() == row.calls.saturating_add(1)
        && reads_as(disk, row.left)
        && append(alloc, disk, b"zz") == Ok(())
        && opens_with(alloc, disk, row.count.saturating_add(1), b"zz")
}

/// The damage is named, by the list of the bytes alone too, and left as it is.
fn is_damaged(alloc: Global, disk: &mut MemDisk, image: &[u8], at: u64, index: usize) -> bool {
    payloads(alloc, image).err() == Some(Unread::Damaged { at, index })
        && lay(disk, image)
        && fault_of_opening(alloc, disk) == Some(JournalFault::Damaged { at })
        && disk.count() == 4
        && reads_as(disk, image)
}

/// An opening that mends, whose call of this number fails, is a fault of the disk; the next opening finds the list and mends.
fn opens_after_a_failed_opening(alloc: Global, disk: &mut MemDisk, call: u64) -> bool {
    lay(disk, b"\x01\x00\x03abc\x07\x00\x01d\x00")
        && disk.fail(call).is_ok()
        && fault_of_opening(alloc, disk) == Some(JournalFault::Disk)
        && opens_with(alloc, disk, 1, b"abc")
        && reads_as(disk, b"\x01\x00\x03abc\x00\x00\x01d\x00")
}

/// An append whose call of this number fails is a fault of the disk; the next opening finds so many payloads.
fn opens_after_a_failed_append(alloc: Global, disk: &mut MemDisk, call: u64, count: usize) -> bool {
    let last: &[u8] = if count == 2 { b"bc" } else { b"a" };
    lay(disk, b"\x01\x00\x01a\x00")
        && disk.fail(call).is_ok()
        && append(alloc, disk, b"bc") == Err(JournalFault::Disk)
        && opens_with(alloc, disk, count, last)
}

/// What a new disk is tried with.
#[derive(Clone, Copy)]
enum Case<'a> {
    Opening(&'a Opening),
    Damaged(&'a [u8], u64, usize),
    FailedOpening(u64),
    FailedAppend(u64, usize),
}

fn holds(alloc: Global, disk: &mut MemDisk, case: &Case<'_>) -> bool {
    match case {
        Case::Opening(row) => is_opening(alloc, disk, row),
        Case::Damaged(image, at, index) => is_damaged(alloc, disk, image, *at, *index),
        Case::FailedOpening(call) => opens_after_a_failed_opening(alloc, disk, *call),
        Case::FailedAppend(call, count) => {
            opens_after_a_failed_append(alloc, disk, *call, *count)
        }
    }
}

fn holds_on_a_new_disk(alloc: Global, case: &Case<'_>) -> bool {
    match MemDisk::new(alloc) {
        Ok(mut disk) => holds(alloc, &mut disk, case),
        Err(_) => false,
    }
}

#[test]
fn an_opening_reads_and_mends_an_area_and_an_append_goes_on(rt: HostRuntime) {
    for row in &OPENINGS {
        assert!(rt; holds_on_a_new_disk(rt.alloc(), &Case::Opening(row)));
    }
}

#[test]
fn damage_is_named_and_left_as_it_is(rt: HostRuntime) {
    for (image, at, index) in DAMAGED {
        assert!(rt; holds_on_a_new_disk(rt.alloc(), &Case::Damaged(image, at, index)));
    }
}

/// The write of the area's bytes is call 1, and an opening that mends makes the next five. Those of an append are 5 to 8.
/// A write that fails takes effect on this disk, so the record is there once its gate was to be written.
#[test]
fn each_call_failing_leaves_the_list_before_or_after(rt: HostRuntime) {
    for call in 2..7 {
        assert!(rt;
            holds_on_a_new_disk(rt.alloc(), &Case::FailedOpening(call)),
            "{call}"
        );
    }
    for (call, count) in [(5, 1), (6, 1), (7, 2), (8, 2)] {
        assert!(rt;
            holds_on_a_new_disk(rt.alloc(), &Case::FailedAppend(call, count)),
            "{call}"
        );
    }
}
