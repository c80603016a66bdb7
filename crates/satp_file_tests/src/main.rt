//! Tests of the real site and its disk over real files. Standard input has a call on each line; each line is printed with what the call answers. A line that begins with `#` is printed alone.
//!
//! `one` and `two` are sites, and their lines are
//! `enter DIRECTORY`, `length AREA`, `read AREA PLACE`, `write AREA PLACE BYTES`, `cut AREA SIZE`, `sync AREA`,
//! `found KIND`, `raise`, `look`, `lock`, `burn` and `mint`.
//! `files` has `remove FOLDER`, `folder PATH`, `put FILE BYTES`, `holds FILE BYTES`, `begins FILE BYTES`, `private FILE` and `there PATH`.
//! `open` has the ways in which the files of the sites open one path: `asked`, `refused`, `unsynced`, `read-only` and `write-only`.
//! Bytes and directories stand with escapes, as `%00`.
#![tactic(auto)]

mod answer;
mod call;
mod disk_calls;
mod file_calls;
mod hindered;
mod ledger_calls;

use crate::answer::{Answer, print_answer};
use crate::call::{Call, decoded};
use crate::disk_calls::disk_call;
use crate::file_calls::file_call;
use crate::hindered::{Hindered, Hindrance, Opened};
use crate::ledger_calls::{Given, ledger_call};
use satp_devices::FileDisk;
use satp_site::{Directory, RealSite};
use std::cell::Cell;
use std::io;
use std::process::ExitCode;

fn main(rt: HostRuntime) -> ExitCode {
    match answer_input(&rt) {
        Some(()) => ExitCode::SUCCESS,
        None => ExitCode::FAILURE,
    }
}

/// None where no memory was found, or a stream failed.
fn answer_input(rt: &HostRuntime) -> Option<()> {
    let text = io::read_to_string(rt.alloc(), rt.stdin()).ok()?;
    let given = Given::new(rt.alloc())?;
    answer_lines(rt, &given, &text)
}

/// No exit stands between the making of the sites and the end: a site that a function drops weighs at each.
fn answer_lines(rt: &HostRuntime, given: &Given, text: &str) -> Option<()> {
    let hindrance = Cell::new(Hindrance {
        path: "",
        opened: Opened::AsAsked,
    });
    let files = Hindered::new(rt, &hindrance);
    let mut one = RealSite::new(FileDisk::new(files, rt.alloc()), rt.alloc());
    let mut two = RealSite::new(FileDisk::new(files, rt.alloc()), rt.alloc());
    answer_each(rt, &mut one, &mut two, &hindrance, given, text)
}

fn answer_each<'p, D: Directory>(
    rt: &HostRuntime,
    one: &mut RealSite<D>,
    two: &mut RealSite<D>,
    hindrance: &Cell<Hindrance<'p>>,
    given: &Given,
    text: &'p str,
) -> Option<()> {
    for line in text.lines() {
        let call = Call::read(line);
        let bytes = decoded(rt.alloc(), call.last)?;
        let answer = match call.to {
            "one" => site_call(one, given, call, &bytes),
            "two" => site_call(two, given, call, &bytes),
            "files" => file_call(rt, call, &bytes),
            "open" => hinder(hindrance, call),
            _ => Answer::Nothing,
        };
        print_answer(rt, line, answer)?;
    }
    Some(())
}

fn site_call<D: Directory>(
    site: &mut RealSite<D>,
    given: &Given,
    call: Call<'_>,
    bytes: &[u8],
) -> Answer {
    match call.word {
        "found" | "raise" | "look" | "lock" | "burn" | "mint" => ledger_call(site, given, call),
        _ => disk_call(site, call, bytes),
    }
}

fn hinder<'p>(hindrance: &Cell<Hindrance<'p>>, call: Call<'p>) -> Answer {
    let opened = match call.word {
        "refused" => Opened::Refused,
        "unsynced" => Opened::Unsynced,
        "read-only" => Opened::ReadOnly,
        "write-only" => Opened::WriteOnly,
        _ => Opened::AsAsked,
    };
    hindrance.set(Hindrance {
        path: call.first,
        opened,
    });
    Answer::Nothing
}
