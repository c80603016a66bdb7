//! A driver of the wire over TCP, for checks after the gate: each line of the input is a call on it, and is answered by a line.
//!
//! - `patience DIAL SILENCE WHOLE FAREWELL`: a new wire, which waits so many milliseconds;
//! - `listen ADDRESS`, `accept`, `connect ADDRESS`, `read COUNT`, `write COUNT`, `shut`.
//!
//! A write says so many letters x. A call that the wire's state bars is answered by `barred`, and isn't made.
#![tactic(auto)]

mod calls;
mod step;

use crate::calls::answer;
use crate::step::Step;
use anyhow::{Context, Result};
use satp_devices::{Patience, TcpWire};
use std::io::{BufRead, BufReader};

fn main(rt: HostRuntime) -> Result<()> {
    let mut wire = TcpWire::new(&rt, Patience::usual());
    for line in BufReader::new(rt.alloc(), rt.stdin())?.lines(rt.alloc()) {
        answer_line(&rt, &mut wire, &line?)?;
    }
    Ok(())
}

/// Makes the call that a line spells, and prints its answer.
fn answer_line<'a>(
    rt: &'a HostRuntime,
    wire: &mut TcpWire<&'a HostRuntime>,
    line: &str,
) -> Result<()> {
    let step = Step::read(line).context("a line is no call")?;
    if let Step::Patience(patience) = step {
        *wire = TcpWire::new(rt, patience);
        println!(rt; "done")?;
        return Ok(());
    }
    let said = answer(rt.alloc(), wire, step)?;
    println!(rt; "{said}")?;
    Ok(())
}
