ghost use Rattle.satp_replay.specs.Replaying.{Replays};

use crate::fault::ReplayFault;
use crate::lines::{add_count, add_sessions, first_line};
use satp_base::Text;
use satp_journal::payloads;
use satp_log::Log;
use std::alloc::Global;

/// The lines of a journal's bytes, each ended by a line feed: `gateway <name> peer <peer>`; for each session, in the order of their first records,
/// `<session> <role> <state> <length>`, where the state is `open`, `committed` or `rolled-back` and the length that of its chain; and `records <n>`, the set-up counted.
///
/// `Damaged` comes exactly where the bytes stand for no list of records, `Empty` exactly where they have none, and `Record` exactly where one may not stand there.
pub fn replay(alloc: Global, journal: &[u8]) -> Result<Text, ReplayFault>
    ensures { Replays journal.now result }
{
    let payloads = payloads(alloc, journal)?;
    let log = Log::read(alloc, &payloads)?;
    let mut text = first_line(alloc, log.setup())?;
    add_sessions(&mut text, &log)?;
    add_count(&mut text, payloads.length())?;
    Ok(text)
}
