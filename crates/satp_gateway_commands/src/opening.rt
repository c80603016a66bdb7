// The opening of a gateway in a directory.
ghost use Rattle.std.specs.Prelude.{◌≡◌, ◌≤◌, false, IfErr, IfOk, OnOk};
ghost use Rattle.satp_gateway_commands.specs.AtGateway.{NotOpened, Opened, open_outcome};
ghost use Rattle.satp_outcome.specs.Outside.{site_state};
ghost use Rattle.satp_points.specs.States.{GateWithin, is_broken};

use satp_base::{Site, Text};
use satp_gateway::{Gateway, OpenFault};
use satp_outcome::{Outcome, PlaceEnd};
use std::alloc::Global;

/// Enters a directory and opens the gateway there: its journal, and then its ledger. It does no due work.
///
/// In this order: `Place` with `Site` where the directory isn't entered, or a call of the opening fails; with `JournalDamaged` where the journal's bytes stand for no list;
/// with `NoGateway` where it has no record; and with `JournalRecord` where it has one that may not stand there. `Memory` may come at any point. Each leaves the ledger
/// as it was. The site's count of faults rises only at `Site`.
pub fn open_at<S: Site>(alloc: Global, dir: &Text, site: &mut S) -> Result<Gateway, Outcome>
    ensures opened { IfOk result (Opened dir.now (site_state S.faults S.told S.book site.old) (site_state S.faults S.told S.book site.new)) }
    ensures not_opened { IfErr result (NotOpened dir.now (site_state S.faults S.told S.book site.old) (site_state S.faults S.told S.book site.new)) }
    ensures whole { IfOk result (λ g. is_broken g ≡ false) }
    ensures within { IfOk result (λ g. GateWithin g (S.told site.new)) }
    ensures beside { S.beside site.old site.new }
    ensures later { S.faults site.old ≤ S.faults site.new }
    ensures kept { OnOk result (S.faults site.new ≡ S.faults site.old) }
{
    let Ok(()) = site.enter(dir.bytes()) else {
        return Err(Outcome::Place(PlaceEnd::Site));
    };
    match Gateway::open(alloc, site) {
        Ok(gateway) => Ok(gateway),
        Err(fault) => Err(open_outcome(fault)),
    }
}

fn open_outcome(fault: OpenFault) -> Outcome
    ensures { result ≡ open_outcome fault }
{
    match fault {
        OpenFault::Damaged { at } => Outcome::Place(PlaceEnd::JournalDamaged { at }),
        OpenFault::Empty => Outcome::Place(PlaceEnd::NoGateway),
        OpenFault::Record { index } => Outcome::Place(PlaceEnd::JournalRecord { index }),
        OpenFault::Site => Outcome::Place(PlaceEnd::Site),
        OpenFault::Memory => Outcome::Memory,
    }
}
