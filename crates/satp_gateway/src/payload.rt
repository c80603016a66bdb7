ghost use Rattle.std.specs.Prelude.{◌≡◌, IfOk};
ghost use Rattle.satp_base.specs.Format.{IsPayload};
ghost use Rattle.satp_records.specs.Formats.{IsFormed, payload_of};
ghost use Rattle.satp_records.specs.declared.stored.Stored.TheVariants as stored;

use satp_base::{Memory, Text};
use satp_records::{Setup, Stored, encode};
use std::alloc::Global;

/// The payload of the record that a gateway was set up.
pub(crate) fn setup_payload(alloc: Global, setup: &Setup) -> Result<Text, Memory>
    requires { IsFormed (stored.Setup setup.now) }
    ensures is { IfOk result (λ out. out ≡ payload_of (stored.Setup setup.now)) }
    ensures fits { IfOk result (λ out. IsPayload out) }
{
    let key = Text::copy(alloc, setup.key.bytes())?;
    let stored = Stored::Setup(Setup {
        name: setup.name,
        peer: setup.peer,
        at: setup.at,
        key,
    });
    encode(alloc, &stored)
}
