//! Tests of two gateways over sites in memory. Standard input has cases, parted by empty lines. Each case begins with new sites, and each of its lines is printed with
//! what it answers. A line that begins with `#` is printed alone.
//!
//! `a` is a site with accounts, `b` one with outputs. Their lines are
//!
//! - `setup NAME PEER KEY GENESIS`, where the key is `own` or `rfc` and the genesis has `;` for its line ends, and `open`;
//! - `start SESSION AMOUNT ASSET FROM TO`, `work SESSION`, `abort SESSION`, `rescue SESSION` and `closing SESSION`;
//! - `hear NUMBER` with the text of that number, from 1, among all that were said in the case, and `hear last` with the last of them; `text BYTES` with these bytes,
//!   and `size NUMBER` with so many;
//! - `show SESSION`, `entry SESSION`, `free ASSET OWNER` and `journal`, which closes the gateway; `count`, the number of calls on the site since the last opening or count;
//! - `fail CALL` and `stop EVENT PICK`, which count from the next call and event on, and `restart`.
//!
//! The line `brief` lets it tell of a text no more than that it was said.
//!
//! A line that begins with `* ` makes a case run many times: with each call of that line failing in turn, with a stop after each event and each of three picks, and then
//! undisturbed. Of the disturbed runs the answers from that line on are printed, each run in one line.
#![tactic(auto)]

mod answer;
mod ask;
mod call;
mod case;
mod lines;
mod reading;
mod said;
mod side;

use crate::case::run_case;
use std::io;
use std::process::ExitCode;

fn main(rt: HostRuntime) -> ExitCode {
    match run_cases(&rt) {
        Some(()) => ExitCode::SUCCESS,
        None => ExitCode::FAILURE,
    }
}

/// None where no memory was found, or a stream failed.
fn run_cases(rt: &HostRuntime) -> Option<()> {
    let text = io::read_to_string(rt.alloc(), rt.stdin()).ok()?;
    for case in text.split("\n\n") {
        run_case(rt, case)?;
    }
    Some(())
}
