//! A driver of the real site, for checks after the gate: each line of the input is a call on it, and is answered by a line.
//!
//! - `enter DIR`, `length AREA`, `read AREA AT COUNT`, `write AREA AT COUNT`, `cut AREA SIZE`, `sync AREA`;
//! - `found accounts`, `found outputs`, `raise`, `lock`, `look`.
//!
//! A write lays the bytes of the places down: at each place its number modulo 251. A read answers how many bytes came, and how many of them are those.
#![tactic(auto)]

mod calls;
mod step;

use crate::calls::{Given, answer};
use crate::step::Step;
use anyhow::{Context, Result};
use satp_devices::FileDisk;
use satp_site::RealSite;
use std::io::{BufRead, BufReader};

type FileSite<'a> = RealSite<FileDisk<&'a HostRuntime>>;

fn main(rt: HostRuntime) -> Result<()> {
    let given = Given::make(rt.alloc())?;
    let mut site = RealSite::new(FileDisk::new(&rt, rt.alloc()), rt.alloc());
    for line in BufReader::new(rt.alloc(), rt.stdin())?.lines(rt.alloc()) {
        answer_line(&rt, &mut site, &given, &line?)?;
    }
    Ok(())
}

/// Makes the call that a line spells, and prints its answer.
fn answer_line(rt: &HostRuntime, site: &mut FileSite<'_>, given: &Given, line: &str) -> Result<()> {
    let step = Step::read(line).context("a line is no call")?;
    let said = answer(rt.alloc(), site, given, step)?;
    println!(rt; "{said}")?;
    Ok(())
}
