use satp_base::{Area, Disk, LedgerCore, Memory};
use satp_drill::{Drilled, Report, drill};
use satp_journal::payloads;
use satp_memory::MemSite;
use satp_schedule::{Schedule, Side, generate};
use std::alloc::Global;

/// A schedule; how many sessions its drill reports, and how many are committed, rolled back and not begun; and how many payloads the
/// journals of A and B have, where that is compared.
type Row = (&'static [u8], (u32, u32, u32, u32), Option<(usize, usize)>);

const ROWS: [Row; 6] = [
    (b"", (0, 0, 0, 0), Some((1, 1))),
    (
        b"start A 1 gold 250 ann bob\n",
        (1, 1, 0, 0),
        Some((15, 14)),
    ),
    (
        b"fail A 1\nstart A 1 gold 250 ann bob\n",
        (1, 0, 0, 1),
        Some((1, 1)),
    ),
    (
        b"fail A 3\nstart A 1 gold 250 ann bob\n",
        (1, 0, 1, 0),
        None,
    ),
    (
        b"start B 7 gold 250 bob ann\nstart B 7 gold 250 bob ann\nstart A 7 gold 10251 ann bob\n",
        (2, 1, 1, 0),
        None,
    ),
    (
        b"lose 3\ntwice 2\nstart A 1 gold 250 ann bob\ndeliver B 1\nabort B alpha.1\nresume A alpha.1\n",
        (1, 0, 1, 0),
        None,
    ),
];

fn run(alloc: Global, text: &[u8]) -> Option<Drilled> {
    let schedule = Schedule::read(alloc, text).ok()?;
    drill(alloc, &schedule).ok()
}

/// How many payloads a journal has.
fn count_in<C: LedgerCore>(alloc: Global, site: &mut MemSite<C>) -> Option<usize> {
    let mut bytes = [0; 32768];
    let count = site.read(Area::JournalA, 0, &mut bytes).ok()?;
    if count >= bytes.len() {
        return None;
    }
    let texts = payloads(alloc, &bytes[..count]).ok()?;
    Some(texts.length())
}

/// The report with these numbers of sessions and all the gold.
fn report_of(numbers: (u32, u32, u32, u32)) -> Report {
    let (sessions, committed, rolled_back, not_begun) = numbers;
    Report {
        sessions,
        committed,
        rolled_back,
        not_begun,
        free_gold: 20_000,
    }
}

/// Whether a row's schedule comes to what the row says.
fn comes(alloc: Global, row: &Row) -> bool {
    let (text, numbers, lengths) = *row;
    let Some(mut drilled) = run(alloc, text) else {
        return false;
    };
    drilled.report == report_of(numbers) && has(alloc, &mut drilled, lengths)
}

fn has(alloc: Global, drilled: &mut Drilled, lengths: Option<(usize, usize)>) -> bool {
    match lengths {
        Some((a, b)) => {
            count_in(alloc, &mut drilled.a) == Some(a) && count_in(alloc, &mut drilled.b) == Some(b)
        }
        None => true,
    }
}

/// The first row that comes to another thing.
fn first_other(alloc: Global) -> Option<usize> {
    for (index, row) in ROWS.iter().enumerate() {
        if !comes(alloc, row) {
            return Some(index);
        }
    }
    None
}

/// Whether a transfer in which a side stops after so many events, or its call of so many fails, leaves one session and all the gold, for each number below `last`.
fn all_are_one(alloc: Global, side: &str, last: u32) -> bool {
    for number in 1..last {
        for pick in [0, 1, 7] {
            if !is_one(
                alloc,
                format!(in alloc; "stop {side} {number} {pick}\nstart A 1 gold 250 ann bob\n"),
            ) {
                return false;
            }
        }
        if !is_one(
            alloc,
            format!(in alloc; "fail {side} {number}\nstart A 1 gold 250 ann bob\n"),
        ) {
            return false;
        }
    }
    true
}

fn is_one(alloc: Global, text: Result<String, std::alloc::AllocError>) -> bool {
    let Ok(text) = text else {
        return false;
    };
    match run(alloc, text.as_bytes()) {
        Some(drilled) => {
            let report = drilled.report;
            report.free_gold == 20_000
                && report.sessions == 1
                && report.committed <= 1
                && report.rolled_back <= 1
                && report.not_begun <= 1
                && report.committed + report.rolled_back + report.not_begun == 1
        }
        None => false,
    }
}

/// The report on the schedule of a number.
fn of_number(alloc: Global, seed: u32) -> Option<Report> {
    let schedule = generate(alloc, seed).ok()?;
    Some(drill(alloc, &schedule).ok()?.report)
}

#[test]
fn stops_and_failures_leave_one_session(rt: HostRuntime) {
    assert!(&rt; all_are_one(rt.alloc(), "A", 59));
}

#[test]
fn stops_and_failures_of_the_other_side_leave_one_session(rt: HostRuntime) {
    assert!(&rt; all_are_one(rt.alloc(), "B", 55));
}

/// The numbers are those of a model in another language, which the checks after the gate run beside the program.
#[test]
fn one_number_is_one_drill(rt: HostRuntime) {
    let report = Some(report_of((200, 146, 54, 0)));
    assert!(&rt; of_number(rt.alloc(), 7) == report && of_number(rt.alloc(), 7) == report);
}

#[test]
fn drills_come_to_their_reports(rt: HostRuntime) {
    let other = first_other(rt.alloc());
    assert!(&rt; other.is_none());
}
