//! A driver of single crates, for checks after the gate and for benchmarks. Its first word says what it drives:
//!
//! - `sign`: each line `<key> <payload>`, both as base64url, is answered by the JWS of the payload under the key;
//! - `verify`: each line `<key> <jws>` by `ok <payload>`, the payload as base64url, or by `refused`;
//! - `texts`: each line, a canonical text, by the text of the message that it is read as, or by `refused`;
//! - `chains`: each line `<key> <text> <text> ..` by the signed texts of the chain that these messages' parts make;
//! - `records`: each line, a payload as base64url, by the payload of the record that it is read as, or by `refused`;
//! - `schedules`: each line `<seed> <line>;<line>;..` by `same` where the seed's schedule has these lines, else by
//!   `other` or `refused`;
//! - `requests <piece>`: a stream of requests, fed in pieces of so many bytes, by how many were taken.
//!
//! It ends with status 0, or with 2 for other words, 5 for a faulty line or request, 10 for want of memory and 11 where
//! the input or the output failed.
#![tactic(auto)]

mod base64url;
mod chains;
mod fault;
mod mode;
mod records;
mod requests;
mod schedules;
mod signatures;
mod texts;

use crate::chains::chain_line;
use crate::fault::DriverFault;
use crate::mode::Mode;
use crate::records::record_line;
use crate::requests::count_requests;
use crate::schedules::schedule_line;
use crate::signatures::{sign_line, verify_line};
use crate::texts::text_line;
use satp_base::Text;
use std::alloc::Global;
use std::io::{self, BufRead, BufReader, BufWriter, Write};
use std::process::ExitCode;

fn main(rt: HostRuntime) -> ExitCode {
    match drive(&rt) {
        Ok(()) => ExitCode::SUCCESS,
        Err(fault) => ExitCode::from(fault.status()),
    }
}

fn drive(rt: &HostRuntime) -> Result<(), DriverFault> {
    let mode = Mode::of_words(rt)?;
    let mut out = BufWriter::new(rt.alloc(), io::writer(rt))?;
    if let Mode::Requests(piece) = mode {
        let count = count_requests(rt.alloc(), &mut rt.stdin(), piece)?;
        writeln!(out, "{count}")?;
    } else {
        for line in BufReader::new(rt.alloc(), rt.stdin())?.lines(rt.alloc()) {
            let answer = answer(rt.alloc(), mode, &line?)?;
            print_line(&mut out, &answer)?;
        }
    }
    out.flush()?;
    Ok(())
}

/// The answer to a line.
fn answer(alloc: Global, mode: Mode, line: &str) -> Result<Text, DriverFault> {
    match mode {
        Mode::Sign => sign_line(alloc, line),
        Mode::Verify => verify_line(alloc, line),
        Mode::Texts => text_line(alloc, line),
        Mode::Chains => chain_line(alloc, line),
        Mode::Records => record_line(alloc, line),
        Mode::Schedules => schedule_line(alloc, line),
        Mode::Requests(_) => Err(DriverFault::Words),
    }
}

fn print_line<W: Write>(out: &mut W, text: &Text) -> io::Result<()> {
    out.write_all(text.bytes())?;
    out.write_all(b"\n")
}
