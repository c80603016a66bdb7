use anyhow::{Context, Result, ensure};
use satp_base::{Area, Disk};
use satp_devices::FileDisk;
use satp_journal::Journal;
use std::alloc::Global;
use std::fs::{File, Files};
use std::rt::Clock;
use std::time::{Duration, Instant};

/// Appends so many records of so many bytes to the journal in a directory, and says how long the appends took.
pub fn append_records<R: Files<File = File> + Clock + AllocGlobal>(
    rt: &R,
    dir: &[u8],
    count: u32,
    bytes: u16,
) -> Result<Duration> {
    ensure!((1..=4096).contains(&bytes), "a record has 1 to 4096 bytes");
    let payload = vec![in rt.alloc(); b'x'; usize::from(bytes)]?;
    let mut disk = FileDisk::new(rt, rt.alloc());
    disk.enter(dir)
        .ok()
        .context("the directory can't be entered")?;
    let mut journal = Journal::open(rt.alloc(), &mut disk, Area::JournalA)?;
    let start = Instant::now(rt)?;
    for _ in 0..count {
        journal.append(&mut disk, &payload)?;
    }
    Ok(start.elapsed(rt)?)
}
