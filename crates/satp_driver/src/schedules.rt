use crate::fault::DriverFault;
use satp_base::{Memory, Text, read_number};
use satp_schedule::{Schedule, ScheduleFault, generate};
use std::alloc::Global;

/// `same` for a line `<seed> <line>;<line>;..` where these are the lines of the seed's schedule, `other` where they are
/// not, and `refused` where they are no schedule.
pub fn schedule_line(alloc: Global, line: &str) -> Result<Text, DriverFault> {
    let (seed, lines) = line.split_once(' ').ok_or(DriverFault::Line)?;
    let seed = read_number(seed.as_bytes()).ok_or(DriverFault::Line)?;
    let read = match Schedule::read(alloc, unfolded(alloc, lines)?.bytes()) {
        Ok(read) => read,
        Err(ScheduleFault::Memory) => return Err(DriverFault::Memory),
        Err(_) => return Ok(Text::copy(alloc, b"refused")?),
    };
    let made = generate(alloc, seed)?;
    let answer = if are_equal(&made, &read) {
        "same"
    } else {
        "other"
    };
    Ok(Text::copy(alloc, answer.as_bytes())?)
}

/// The text with a line feed for each semicolon.
fn unfolded(alloc: Global, lines: &str) -> Result<Text, Memory> {
    let mut text = Text::copy(alloc, b"")?;
    for line in lines.split(';') {
        if !line.is_empty() {
            text.append(line.as_bytes())?;
            text.append(b"\n")?;
        }
    }
    Ok(text)
}

fn are_equal(made: &Schedule, read: &Schedule) -> bool {
    made.length() == read.length()
        && (0..made.length()).all(|index| made.line(index) == read.line(index))
}
