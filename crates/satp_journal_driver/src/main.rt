//! A driver for measurements: appends records to a journal in a real file, and prints how long that took.
#![tactic(auto)]

mod appending;

use crate::appending::append_records;
use anyhow::{Context, Result, bail};
use std::env;

/// Words: a directory, the number of records, and the bytes of each, from 1 to 4,096.
fn main(rt: HostRuntime) -> Result<()> {
    let mut words = env::args(&rt)?;
    let _program = words.next();
    let (Some(dir), Some(count), Some(bytes)) = (words.next(), words.next(), words.next()) else {
        bail!("wanted: a directory, a number of records, and the bytes of each");
    };
    let count = count.parse::<u32>().context("the number of records")?;
    let bytes = bytes.parse::<u16>().context("the bytes of a record")?;
    let time = append_records(&rt, dir.as_bytes(), count, bytes)?;
    let nanoseconds = time.as_nanos();
    println!(rt; "{count} records of {bytes} bytes in {nanoseconds} ns")?;
    Ok(())
}
