// The gateway `alpha` at a site in memory. It is opened for each drive.
ghost use Rattle.std.specs.Prelude.{◌≡◌, false};

use satp_accounts::Accounts;
use satp_base::{Address, Amount, Genesis, LedgerKind, Name, SessionId, Terms, Text};
use satp_drive::{Driven, drive_recover, drive_resume, drive_start};
use satp_gateway::{Gateway, Refused};
use satp_memory::{MemSite, MemWire};
use satp_records::Setup;
use std::alloc::Global;

pub type Site = MemSite<Accounts>;

/// What came of a drive. None where it isn't begun: the gateway isn't opened, or no memory was found.
pub type Came = Option<Result<Driven, Refused>>;

fn name(text: &[u8]) -> Option<Name> {
    Name::read(text).ok()
}

/// What `alpha` is set up with.
pub fn setup(alloc: Global) -> Option<Setup> {
    Some(Setup {
        name: name(b"alpha")?,
        peer: name(b"beta")?,
        at: Address::read(b"127.0.0.1:7002").ok()?,
        key: Text::copy(alloc, b"the key of both of the gateways.").ok()?,
    })
}

/// 250 gold from ann to bob.
fn terms() -> Option<Terms> {
    Some(Terms {
        amount: Amount::read(b"250").ok()?,
        asset: name(b"gold")?,
        beneficiary: name(b"bob")?,
        originator: name(b"ann")?,
    })
}

pub fn session() -> Option<SessionId> {
    SessionId::read(b"alpha.1").ok()
}

/// Whether the gateway was set up.
pub fn set_up(alloc: Global, site: &mut Site, setup: &Setup, genesis: &Genesis) -> bool {
    let length = setup.key.bytes().len();
    if length < 32 || length > 64 || setup.name == setup.peer {
        return false;
    }
    Gateway::set_up(alloc, site, setup, LedgerKind::Accounts, genesis).is_ok()
}

/// Starts `alpha.1`.
pub fn start(alloc: Global, site: &mut Site, wire: &mut MemWire) -> Came
    requires closed { wire.old.is_open ≡ false }
{
    let terms = terms()?;
    match Gateway::open(alloc, site) {
        Ok(mut gateway) => Some(drive_start(alloc, &mut gateway, site, wire, 1, &terms)),
        Err(_) => None,
    }
}

pub fn resume(alloc: Global, site: &mut Site, wire: &mut MemWire, session: SessionId) -> Came
    requires closed { wire.old.is_open ≡ false }
{
    match Gateway::open(alloc, site) {
        Ok(mut gateway) => Some(drive_resume(alloc, &mut gateway, site, wire, session)),
        Err(_) => None,
    }
}

pub fn recover(alloc: Global, site: &mut Site, wire: &mut MemWire, session: SessionId) -> Came
    requires closed { wire.old.is_open ≡ false }
{
    match Gateway::open(alloc, site) {
        Ok(mut gateway) => Some(drive_recover(alloc, &mut gateway, site, wire, session)),
        Err(_) => None,
    }
}
