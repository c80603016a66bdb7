// What both gateways are set up with.
ghost use Rattle.std.specs.Prelude.{◌≡◌, ◌≢◌, ◌≤◌, true, length, IfOk};
ghost use Rattle.satp_base.specs.Names.{is_address};
ghost use Rattle.satp_drill_runs.specs.Reports.{alpha, beta};

use crate::names::{alpha, beta};
use crate::place::{Place, open};
use satp_base::{Address, Genesis, LedgerCore, Memory, Text};
use satp_gateway::Gateway;
use satp_memory::MemSite;
use satp_records::Setup;
use std::alloc::Global;

/// The key that both sign with: the bytes 0 to 31.
const KEY: &[u8] =
    b"\x00\x01\x02\x03\x04\x05\x06\x07\x08\x09\x0a\x0b\x0c\x0d\x0e\x0f\x10\x11\x12\x13\x14\x15\x16\x17\x18\x19\x1a\x1b\x1c\x1d\x1e\x1f";

/// The ledger of accounts begins with 10,000 gold of ann.
pub(crate) const OF_ACCOUNTS: &[u8] = b"asset gold 1000000\nhold gold ann 10000\n";

/// The ledger of outputs begins with ten outputs of 1,000 gold of bob.
pub(crate) const OF_OUTPUTS: &[u8] =
    b"asset gold 1000000\nhold gold bob 1000\nhold gold bob 1000\nhold gold bob 1000\nhold gold bob 1000\nhold gold bob 1000\nhold gold bob 1000\nhold gold bob 1000\nhold gold bob 1000\nhold gold bob 1000\nhold gold bob 1000\n";

fn address(text: &[u8]) -> Address
    requires { is_address text.now ≡ true }
{
    let Ok(address) = Address::read(text) else {
        unreachable!()
    };
    address
}

/// What the gateway of side A is set up with.
pub(crate) fn setup_a(alloc: Global) -> Result<Setup, Memory>
    ensures { IfOk result (λ setup. (setup.name ≡ alpha) × (setup.peer ≡ beta) × (length setup.key ≡ 32)) }
{
    Ok(Setup {
        name: alpha(),
        peer: beta(),
        at: address(b"127.0.0.1:7002"),
        key: Text::copy(alloc, KEY)?,
    })
}

/// What the gateway of side B is set up with.
pub(crate) fn setup_b(alloc: Global) -> Result<Setup, Memory>
    ensures { IfOk result (λ setup. (setup.name ≡ beta) × (setup.peer ≡ alpha) × (length setup.key ≡ 32)) }
{
    Ok(Setup {
        name: beta(),
        peer: alpha(),
        at: address(b"127.0.0.1:7001"),
        key: Text::copy(alloc, KEY)?,
    })
}

/// Sets a gateway up at a new site, and opens it there.
pub(crate) fn found<C: LedgerCore>(
    alloc: Global,
    setup: &Setup,
    genesis: &[u8],
) -> Result<Place<C>, Memory>
    requires key { length setup.now.key ≡ 32 }
    requires peer { setup.now.name ≢ setup.now.peer }
{
    let Ok(genesis) = Genesis::read(alloc, genesis) else {
        return Err(Memory);
    };
    let mut site = MemSite::new(alloc)?;
    if Gateway::set_up(alloc, &mut site, setup, C::KIND, &genesis).is_err() {
        return Err(Memory);
    }
    open(alloc, site)
}
