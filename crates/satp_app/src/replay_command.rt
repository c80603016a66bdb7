ghost use Rattle.std.specs.Prelude.{◌≡◌, false, IfOk};
ghost use Rattle.satp_app.specs.Replay.{journal_form, replay_says};
ghost use Rattle.satp_outcome.specs.Outside.{sink, source, streams};
ghost use Rattle.satp_outcome.specs.Streams.{StreamRule, TextRule};

use satp_base::{Memory, Sink, Source};
use satp_outcome::{InputEnd, Outcome, Reply, conclude, read_to};
use satp_replay::ReplayFault;
use std::alloc::Global;

/// The longest journal that is replayed.
const LONGEST_JOURNAL: usize = 134_217_728;

/// Reads the bytes of a journal and prints its gateway, its sessions and how many records it has.
pub(crate) fn replay<I: Source, K: Sink>(alloc: Global, input: &mut I, out: &mut K) -> Outcome
    requires over { I.is_over input.old ≡ false }
    requires failed { K.has_failed out.old ≡ false }
    ensures { StreamRule journal_form replay_says
        (streams (source I.faults I.left I.is_over input.old) (sink K.faults K.taken K.has_failed out.old))
        (streams (source I.faults I.left I.is_over input.new) (sink K.faults K.taken K.has_failed out.new))
        result }
{
    match read_to(alloc, input, LONGEST_JOURNAL) {
        Ok(held) => match journal_on(held.bytes()) {
            Some(journal) => conclude(out, reply(alloc, journal)),
            None => Outcome::Input(InputEnd::Long),
        },
        Err(outcome) => outcome,
    }
}

/// The journal on an input. None where it is longer than what is replayed.
fn journal_on(input: &[u8]) -> Option<&[u8]>
    ensures { TextRule journal_form input.now result }
{
    if input.len() > LONGEST_JOURNAL {
        None
    } else {
        Some(input)
    }
}

/// The reply to a journal's bytes.
fn reply(alloc: Global, journal: &[u8]) -> Result<Reply, Memory>
    ensures { IfOk result (replay_says journal.now) }
{
    match satp_replay::replay(alloc, journal) {
        Ok(lines) => Ok(Reply::Lines(lines)),
        Err(ReplayFault::Damaged { at }) => Ok(Reply::Refuses(InputEnd::LogDamaged { at })),
        Err(ReplayFault::Empty) => Ok(Reply::Refuses(InputEnd::LogEmpty)),
        Err(ReplayFault::Record { index }) => Ok(Reply::Refuses(InputEnd::LogRecord { index })),
        Err(ReplayFault::Memory) => Err(Memory),
    }
}
