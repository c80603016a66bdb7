use satp_base::{Area, Disk};
use satp_memory::MemDisk;
use std::alloc::Global;

/// The bytes of a read, with zeros after them, and how many they are.
type Image = ([u8; 8], usize);

/// What calls saw: which did what they are named for, what they read, the lengths that they answered, and the counts of calls and of wants.
#[derive(Clone, Copy, PartialEq, Eq)]
struct Seen {
    done: [bool; 6],
    image: Option<Image>,
    lengths: [Option<u64>; 3],
    counts: [u64; 2],
}

/// The bytes of an area from a place on, of which at most eight are read.
fn image(disk: &mut MemDisk, area: Area, at: u64) -> Option<Image> {
    let mut into = [0; 8];
    let count = disk.read(area, at, &mut into).ok()?;
    Some((into, count))
}

fn counts(disk: &MemDisk) -> [u64; 2] {
    [disk.count(), disk.wants()]
}

/// An entering, and a write that is to fail, of which the bytes are there all the same; a sync that is to fail, and another.
fn failing_calls(disk: &mut MemDisk) -> Seen {
    let named = disk.fail(2).is_ok() && disk.fail(5).is_ok();
    let entered = disk.enter(b"here").is_ok();
    let written = disk.write(Area::Ledger, 0, b"abc").is_ok();
    let length = disk.length(Area::Ledger).ok();
    let image = image(disk, Area::Ledger, 1);
    let synced = [
        disk.sync(Area::Ledger).is_ok(),
        disk.sync(Area::Ledger).is_ok(),
    ];
    let cut = disk.cut(Area::Ledger, 0).is_ok();
    Seen {
        done: [named, entered, written, synced[0], synced[1], cut],
        image,
        lengths: [
            length,
            disk.length(Area::Ledger).ok(),
            disk.length(Area::JournalA).ok(),
        ],
        counts: counts(disk),
    }
}

const FAILING_CALLS: Seen = Seen {
    done: [true, true, false, false, true, true],
    image: Some((*b"bc\0\0\0\0\0\0", 2)),
    lengths: [Some(3), Some(0), Some(0)],
    counts: [9, 0],
};

/// A stop and a failure that were cleared before they came, and a stop that is reached, which stays until the restart.
fn cleared_calls(disk: &mut MemDisk) -> Seen {
    disk.stop_at(1, 0);
    let named = disk.fail(2).is_ok();
    disk.clear();
    let written = disk.write(Area::JournalA, 0, b"abc").is_ok();
    let synced = disk.sync(Area::JournalA).is_ok();
    disk.stop_at(0, 1);
    disk.clear();
    let stopped = disk.sync(Area::JournalA).is_err();
    let still = disk.length(Area::JournalA).is_err();
    let restarted = disk.restart().is_ok();
    Seen {
        done: [named, written, synced, stopped, still, restarted],
        image: None,
        lengths: [None; 3],
        counts: counts(disk),
    }
}

const CLEARED_CALLS: Seen = Seen {
    done: [true; 6],
    image: None,
    lengths: [None; 3],
    counts: [4, 0],
};

fn calls_of_a_new_disk(alloc: Global, cleared: bool) -> Option<Seen> {
    match MemDisk::new(alloc) {
        Ok(mut disk) => Some(if cleared {
            cleared_calls(&mut disk)
        } else {
            failing_calls(&mut disk)
        }),
        Err(_) => None,
    }
}

#[test]
fn a_disk_fails_where_it_is_told_to_until_it_is_cleared(rt: HostRuntime) {
    let seen = [
        calls_of_a_new_disk(rt.alloc(), false),
        calls_of_a_new_disk(rt.alloc(), true),
    ];
    assert!(rt; seen == [Some(FAILING_CALLS), Some(CLEARED_CALLS)]);
}

/// Whether a disk has stopped after two events: before the first, after it, after the second, after a clearing, and after a restart.
fn stops_seen(disk: &mut MemDisk) -> [bool; 5] {
    disk.stop_at(2, 0);
    let before = disk.is_stopped();
    let _ = disk.write(Area::JournalA, 0, b"abc");
    let after_one = disk.is_stopped();
    let _ = disk.sync(Area::JournalA);
    let after_two = disk.is_stopped();
    disk.clear();
    let cleared = disk.is_stopped();
    let _ = disk.restart();
    [before, after_one, after_two, cleared, disk.is_stopped()]
}

fn stops_of_a_new_disk(alloc: Global) -> Option<[bool; 5]> {
    match MemDisk::new(alloc) {
        Ok(mut disk) => Some(stops_seen(&mut disk)),
        Err(_) => None,
    }
}

#[test]
fn a_disk_has_stopped_from_its_last_event_to_a_restart(rt: HostRuntime) {
    assert!(rt; stops_of_a_new_disk(rt.alloc()) == Some([false, false, true, true, false]));
}

/// `abcd` is synced, then `XY` is laid over its end and `EF` after it: three events. The stop comes before the sync.
fn stopped_image(disk: &mut MemDisk, pick: u32) -> Option<Image> {
    disk.stop_at(3, pick);
    disk.write(Area::JournalA, 0, b"abcd").ok()?;
    disk.sync(Area::JournalA).ok()?;
    disk.write(Area::JournalA, 2, b"XYEF").ok()?;
    let works = disk.sync(Area::JournalA).is_ok() || disk.length(Area::JournalA).is_ok();
    disk.restart().ok()?;
    if works {
        None
    } else {
        image(disk, Area::JournalA, 0)
    }
}

/// A write and a cut, and a restart without a stop.
fn kept_image(disk: &mut MemDisk) -> Option<Image> {
    disk.write(Area::JournalA, 0, b"abc").ok()?;
    disk.cut(Area::JournalA, 2).ok()?;
    disk.restart().ok()?;
    image(disk, Area::JournalA, 0)
}

/// What a restart leaves: after a stop with a pick, or without a stop.
fn image_left(alloc: Global, pick: Option<u32>) -> Option<Image> {
    match MemDisk::new(alloc) {
        Ok(mut disk) => match pick {
            Some(pick) => stopped_image(&mut disk, pick),
            None => kept_image(&mut disk),
        },
        Err(_) => None,
    }
}

#[test]
fn a_restart_leaves_the_picked_image_or_the_new_bytes(rt: HostRuntime) {
    for (pick, image, size) in [
        (None, *b"ab\0\0\0\0\0\0", 2),
        (Some(0), *b"abcd\0\0\0\0", 4),
        (Some(1), *b"abXYEF\0\0", 6),
        (Some(7), *b"ab\x07\x07\x07\x07\0\0", 6),
        (Some(255), *b"ab\xff\xff\xff\xff\0\0", 6),
        (Some(256), *b"ab\0\0\0\0\0\0", 6),
        (Some(257), *b"ab\x01\x01\x01\x01\0\0", 6),
    ] {
        assert!(rt; image_left(rt.alloc(), pick) == Some((image, size)));
    }
}
