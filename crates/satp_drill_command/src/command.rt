ghost use Rattle.std.specs.Prelude.{◌≡◌, ◌≤◌, false, length, IfOk};
ghost use Rattle.satp_drill_command.specs.Drilling.{DrillRule, SeedRule, SeedTells, schedule_form, schedule_says};
ghost use Rattle.satp_outcome.specs.Outside.{sink, source, streams};
ghost use Rattle.satp_outcome.specs.Streams.{StreamRule, TextRule};
ghost use Rattle.satp_schedule.specs.Lines.{most_bytes};

use crate::line::told;
use satp_base::{Memory, Sink, SinkFault, Source, Text};
use satp_outcome::{InputEnd, Outcome, Reply, conclude, read_to, say};
use satp_schedule::{Schedule, ScheduleFault, generate};
use std::alloc::Global;

/// Carries out the schedule of a seed between two new gateways, and prints
/// `drill <seed>: sessions <s>, committed <c>, rolled back <r>, not begun <n>, free gold <g>`.
///
/// The seed 0 has no schedule of its own. Its schedule is read from the input, to its end or to the first byte past
/// 262,144. A longer input is refused as too long before any line is looked at, and else one that is no schedule at its
/// first line that is none. At any other seed the input is left alone.
pub fn drill<I: Source, K: Sink>(alloc: Global, seed: u32, input: &mut I, out: &mut K) -> Outcome
    requires over { I.is_over input.old ≡ false }
    requires failed { K.has_failed out.old ≡ false }
    ensures { DrillRule seed
        (streams (source I.faults I.left I.is_over input.old) (sink K.faults K.taken K.has_failed out.old))
        (streams (source I.faults I.left I.is_over input.new) (sink K.faults K.taken K.has_failed out.new))
        result }
{
    if seed == 0 {
        drill_input(alloc, input, out)
    } else {
        drill_seed(alloc, seed, out)
    }
}

/// Carries out the schedule on the input.
fn drill_input<I: Source, K: Sink>(alloc: Global, input: &mut I, out: &mut K) -> Outcome
    requires over { I.is_over input.old ≡ false }
    requires failed { K.has_failed out.old ≡ false }
    ensures { StreamRule schedule_form schedule_says
        (streams (source I.faults I.left I.is_over input.old) (sink K.faults K.taken K.has_failed out.old))
        (streams (source I.faults I.left I.is_over input.new) (sink K.faults K.taken K.has_failed out.new))
        result }
{
    match read_to(alloc, input, Schedule::BYTES) {
        Ok(held) => match schedule_on(held.bytes()) {
            Some(text) => conclude(out, input_reply(alloc, text)),
            None => Outcome::Input(InputEnd::Long),
        },
        Err(outcome) => outcome,
    }
}

/// The text of a schedule on an input. None where it is longer than a schedule's.
fn schedule_on(input: &[u8]) -> Option<&[u8]>
    ensures { TextRule schedule_form input.now result }
{
    if input.len() > Schedule::BYTES {
        None
    } else {
        Some(input)
    }
}

/// The reply to the text of a schedule.
fn input_reply(alloc: Global, text: &[u8]) -> Result<Reply, Memory>
    requires { length text.now ≤ most_bytes }
    ensures { IfOk result (schedule_says text.now) }
{
    match Schedule::read(alloc, text) {
        Ok(schedule) => Ok(Reply::Lines(told(alloc, 0, &schedule)?)),
        Err(ScheduleFault::Long { .. }) => unreachable!(),
        Err(ScheduleFault::Line { number }) => {
            Ok(Reply::Refuses(InputEnd::ScheduleLine { number }))
        }
        Err(ScheduleFault::Memory) => Err(Memory),
    }
}

/// Carries out the schedule of a seed.
fn drill_seed<K: Sink>(alloc: Global, seed: u32, out: &mut K) -> Outcome
    requires { K.has_failed out.old ≡ false }
    ensures { SeedRule seed (sink K.faults K.taken K.has_failed out.old) (sink K.faults K.taken K.has_failed out.new) result }
{
    match seed_line(alloc, seed) {
        Ok(line) => match say(out, line.bytes()) {
            Ok(()) => Outcome::Done,
            Err(SinkFault) => Outcome::OutputFailed,
        },
        Err(Memory) => Outcome::Memory,
    }
}

/// What the schedule of a seed comes to.
fn seed_line(alloc: Global, seed: u32) -> Result<Text, Memory>
    ensures { IfOk result (SeedTells seed) }
{
    let schedule = generate(alloc, seed)?;
    told(alloc, seed, &schedule)
}
