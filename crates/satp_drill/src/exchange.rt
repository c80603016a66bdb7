// A side drives over a wire to the other one.
ghost use Rattle.std.specs.Prelude.{◌≡◌, false, Some};
ghost use Rattle.satp_memory.specs.Steps.{told_of};
ghost use Rattle.satp_points.specs.States.{GateWithin, is_broken};

use crate::place::Place;
use satp_base::{LedgerCore, Memory, SessionId, Terms};
use satp_drive::{DriveEnd, Driven, drive_recover, drive_resume, drive_start};
use satp_gateway::{Gateway, Refused};
use satp_loop::{LoopWire, Mail, Seat};
use satp_memory::MemSite;
use std::alloc::Global;

/// What a side drives.
#[derive(Clone, Copy)]
pub(crate) enum Errand {
    /// It starts a session of its own name.
    Start { session: SessionId, terms: Terms },
    /// It goes on with a session.
    Resume(SessionId),
    /// It begins a recovery round.
    Recover(SessionId),
}

/// A side that did something, the other one, and what they have said to each other.
#[derive(Drop)]
pub(crate) struct Pair<C: LedgerCore, D: LedgerCore> {
    pub(crate) own: Place<C>,
    pub(crate) peer: Place<D>,
    pub(crate) mail: Mail,
}

/// A side drives. What its gateway refuses, and how the drive ends, is left to the records.
#[tactic(auto, using(crate::proofs::Keeping::within_from, crate::proofs::Keeping::fits_from))]
pub(crate) fn exchange<C: LedgerCore, D: LedgerCore>(
    alloc: Global,
    pair: Pair<C, D>,
    errand: Errand,
) -> Result<Pair<C, D>, Memory> {
    let own = pair.own;
    let peer = pair.peer;
    let mut gateway = own.gateway;
    let mut site = own.site;
    let seat = Seat {
        gateway: peer.gateway,
        site: peer.site,
    };
    let mut wire = LoopWire::new(alloc, seat, pair.mail);
    let driven = run(alloc, &mut gateway, &mut site, &mut wire, errand);
    if lacks_memory(driven) || wire.wants() != 0 {
        return Err(Memory);
    }
    let (seat, mail) = wire.into_parts();
    let own = Place { gateway, site };
    let peer = Place {
        gateway: seat.gateway,
        site: seat.site,
    };
    Ok(Pair { own, peer, mail })
}

#[tactic(none)]
fn run<C: LedgerCore, D: LedgerCore>(
    alloc: Global,
    gateway: &mut Gateway,
    site: &mut MemSite<C>,
    wire: &mut LoopWire<MemSite<D>>,
    errand: Errand,
) -> Result<Driven, Refused>
    requires within { is_broken gateway.old ≡ false → GateWithin gateway.old (Some (told_of site.old.disk)) }
    requires closed { wire.old.line.is_open ≡ false }
    ensures within { is_broken gateway.new ≡ false → GateWithin gateway.new (Some (told_of site.new.disk)) }
{
    match errand {
        Errand::Start { session, terms } => {
            drive_start(alloc, gateway, site, wire, session.number, &terms)
        }
        Errand::Resume(session) => drive_resume(alloc, gateway, site, wire, session),
        Errand::Recover(session) => drive_recover(alloc, gateway, site, wire, session),
    }
}

/// Whether a drive found no memory.
fn lacks_memory(ended: Result<Driven, Refused>) -> bool {
    match ended {
        Ok(driven) => matches!(driven.end, DriveEnd::Memory),
        Err(refused) => matches!(refused, Refused::Memory),
    }
}
