// The line that a drill prints.
ghost use Rattle.std.specs.Prelude.{◌≡◌, ◌++◌, IfOk, OnOk};
ghost use Rattle.satp_drill_command.specs.Drilling.{Tells, numbered, report_line};

use satp_base::{Memory, Text};
use satp_drill::{Report, drill};
use satp_phrases::append_number;
use satp_schedule::Schedule;
use std::alloc::Global;

/// Carries a schedule out, and tells what it comes to.
pub(crate) fn told(alloc: Global, seed: u32, schedule: &Schedule) -> Result<Text, Memory>
    ensures { IfOk result (Tells seed schedule.now) }
{
    let drilled = drill(alloc, schedule)?;
    report_line(alloc, seed, drilled.report)
}

/// The line of a report.
fn report_line(alloc: Global, seed: u32, report: Report) -> Result<Text, Memory>
    ensures { IfOk result (λ line. line ≡ report_line seed report) }
{
    let mut line = Text::copy(alloc, b"")?;
    add(&mut line, b"drill ", seed as u64)?;
    add(&mut line, b": sessions ", report.sessions as u64)?;
    add(&mut line, b", committed ", report.committed as u64)?;
    add(&mut line, b", rolled back ", report.rolled_back as u64)?;
    add(&mut line, b", not begun ", report.not_begun as u64)?;
    add(&mut line, b", free gold ", report.free_gold)?;
    line.append(b"\n")?;
    Ok(line)
}

/// Adds words and a number. Where no memory is found some of it may have been added.
fn add(line: &mut Text, words: &[u8], number: u64) -> Result<(), Memory>
    ensures { OnOk result (line.new ≡ line.old ++ numbered words.now number) }
{
    line.append(words)?;
    append_number(line, number)
}
