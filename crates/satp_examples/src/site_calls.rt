// Two calls on any site, and what their caller knows of them at a site in memory.
ghost use Rattle.std.specs.Prelude.{◌≡◌, ◌≤◌};

use satp_base::{ActFault, Answer, Area, LedgerCore, LedgerOp, SessionId, Site, Terms};
use satp_memory::MemSite;

/// Writes a byte to the begin of the first journal, and then operates on the ledger. `Failed` comes where one of the two calls failed.
///
/// Of the site it promises no more than that all else goes on as over calls.
pub fn write_and_act<S: Site>(
    site: &mut S,
    byte: u8,
    op: LedgerOp,
    session: SessionId,
    terms: &Terms,
) -> Result<Answer, ActFault>
    ensures beside { S.beside site.old site.new }
{
    if site.write(Area::JournalA, 0, &[byte]).is_err() {
        return Err(ActFault::Failed);
    }
    site.act(op, session, terms)
}

/// The same at a site in memory, whose stop and whose named calls stay.
pub fn write_and_act_in_memory<C: LedgerCore>(
    site: &mut MemSite<C>,
    byte: u8,
    op: LedgerOp,
    session: SessionId,
    terms: &Terms,
) -> Result<Answer, ActFault>
    ensures stop { site.new.disk.stop ≡ site.old.disk.stop }
    ensures named { site.new.disk.calls.named ≡ site.old.disk.calls.named }
    ensures count { site.old.disk.calls.count ≤ site.new.disk.calls.count }
{
    write_and_act(site, byte, op, session, terms)
}
