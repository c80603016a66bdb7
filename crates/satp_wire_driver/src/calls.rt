ghost use Rattle.std.specs.Prelude.{◌≡◌, true, is_some};

use crate::step::Step;
use anyhow::Result;
use satp_base::{Address, Wire, WireFault};
use satp_devices::TcpWire;
use std::alloc::Global;
use std::net::Net;
use std::time::Clock;

/// What a wire answers to a call.
pub fn answer<R: Net + Clock + Copy>(
    alloc: Global,
    wire: &mut TcpWire<R>,
    step: Step<'_>,
) -> Result<String> {
    let done = match step {
        Step::Listen(at) => wire.listen(&Address::read(at.as_bytes())?).is_ok(),
        Step::Connect(at) if !wire.is_open() => {
            wire.connect(&Address::read(at.as_bytes())?).is_ok()
        }
        Step::Accept if wire.listens() && !wire.is_open() => wire.accept().is_ok(),
        Step::Read(count) if wire.is_open() => return read(alloc, wire, count),
        Step::Write(count) if wire.is_open() => return write(alloc, wire, count),
        Step::Shut => {
            wire.shut();
            true
        }
        _ => return Ok(format!(in alloc; "barred")?),
    };
    let said = if done { "done" } else { "failed" };
    Ok(format!(in alloc; "{said}")?)
}

fn read<R: Net + Clock + Copy>(alloc: Global, wire: &mut TcpWire<R>, count: u16) -> Result<String>
    requires { is_some wire.old.connection ≡ true }
{
    let mut into = vec![in alloc; b'.'; usize::from(count)]?;
    match wire.read(into.as_mut_slice()) {
        Ok(count) => {
            let text = str::from_utf8(&into.as_slice()[..count]).unwrap_or("?");
            Ok(format!(in alloc; "{count} read {text}")?)
        }
        Err(WireFault) => Ok(format!(in alloc; "failed")?),
    }
}

fn write<R: Net + Clock + Copy>(alloc: Global, wire: &mut TcpWire<R>, count: u32) -> Result<String>
    requires { is_some wire.old.connection ≡ true }
{
    let piece = vec![in alloc; b'x'; count as usize]?;
    match wire.write(piece.as_slice()) {
        Ok(count) => Ok(format!(in alloc; "{count} written")?),
        Err(WireFault) => Ok(format!(in alloc; "failed")?),
    }
}
