ghost use Rattle.std.specs.Prelude.{◌≡◌, ◌≢◌, ◌≤◌, false, length, MatchResult};
ghost use Rattle.satp_app.specs.Init.{InitRule, NotRead, Reads, IsGenesisText, order, set_up_outcome};
ghost use Rattle.satp_outcome.specs.Outside.{WireState, outside, sink, site_state, source, streams};

use satp_base::{
    DiskFault, Genesis, GenesisFault, LedgerKind, Name, Sink, SinkFault, Site, Source, Text,
};
use satp_gateway::{SetUpFault, Vacancy};
use satp_outcome::{InputEnd, Outcome, PlaceEnd, read_to, say_both};
use satp_records::Setup;
use std::alloc::Global;

/// Sets a gateway up in a directory, with the genesis on the input, and prints that it is ready.
pub(crate) fn init<S: Site, I: Source, K: Sink>(
    alloc: Global,
    dir: &Text,
    setup: &Setup,
    kind: LedgerKind,
    site: &mut S,
    input: &mut I,
    out: &mut K,
) -> Outcome
    requires key_least { 32 ≤ length setup.now.key }
    requires key_most { length setup.now.key ≤ 64 }
    requires peer { setup.now.name ≢ setup.now.peer }
    requires over { I.is_over input.old ≡ false }
    requires failed { K.has_failed out.old ≡ false }
    ensures rule { (wire : WireState) → InitRule (order dir.now setup.now kind)
        (outside (streams (source I.faults I.left I.is_over input.old) (sink K.faults K.taken K.has_failed out.old)) (site_state S.faults S.told S.book site.old) wire)
        (outside (streams (source I.faults I.left I.is_over input.new) (sink K.faults K.taken K.has_failed out.new)) (site_state S.faults S.told S.book site.new) wire)
        result }
    ensures beside { S.beside site.old site.new }
{
    match site.enter(dir.bytes()) {
        Ok(()) => {}
        Err(DiskFault) => return Outcome::Place(PlaceEnd::Site),
    }
    let vacancy = match Vacancy::open(alloc, site) {
        Ok(vacancy) => vacancy,
        Err(fault) => return not_set_up(fault),
    };
    let genesis = match read_genesis(alloc, input) {
        Ok(genesis) => genesis,
        Err(outcome) => return outcome,
    };
    match vacancy.set_up(alloc, site, setup, kind, &genesis) {
        Ok(()) => {}
        Err(fault) => return not_set_up(fault),
    }
    match say_both(out, setup.name.bytes(), b" ready\n") {
        Ok(()) => Outcome::Done,
        Err(SinkFault) => Outcome::OutputFailed,
    }
}

/// Reads the genesis on the input.
fn read_genesis<I: Source>(alloc: Global, input: &mut I) -> Result<Genesis, Outcome>
    requires { I.is_over input.old ≡ false }
    ensures { MatchResult result
        (λ genesis. Reads (source I.faults I.left I.is_over input.old) (source I.faults I.left I.is_over input.new) (IsGenesisText genesis))
        (NotRead (source I.faults I.left I.is_over input.old) (source I.faults I.left I.is_over input.new)) }
{
    let held = match read_to(alloc, input, Genesis::BYTES) {
        Ok(held) => held,
        Err(outcome) => return Err(outcome),
    };
    if held.bytes().len() > Genesis::BYTES {
        return Err(Outcome::Input(InputEnd::Long));
    }
    match Genesis::read(alloc, held.bytes()) {
        Ok(genesis) => Ok(genesis),
        Err(GenesisFault::Long { .. }) => unreachable!(),
        Err(GenesisFault::Line { number }) => Err(Outcome::Input(InputEnd::GenesisLine { number })),
        Err(GenesisFault::Memory) => Err(Outcome::Memory),
    }
}

fn not_set_up(fault: SetUpFault) -> Outcome
    ensures { result ≡ set_up_outcome fault }
{
    match fault {
        SetUpFault::Already => Outcome::Place(PlaceEnd::GatewayThere),
        SetUpFault::Damaged { at } => Outcome::Place(PlaceEnd::JournalDamaged { at }),
        SetUpFault::Site => Outcome::Place(PlaceEnd::Site),
        SetUpFault::Memory => Outcome::Memory,
    }
}
