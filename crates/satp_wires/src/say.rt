// Bytes that are said over a wire.
ghost use Rattle.std.specs.Prelude.{◌≡◌, true, option_map, OnOk, OnErr};
ghost use Rattle.satp_base.specs.Streams.{HasCause};
ghost use Rattle.satp_base.specs.Wires.{says};
ghost use Rattle.satp_wires.specs.Saying.{SaysPart};

use satp_base::{Wire, WireFault};

/// Says all the bytes, in as many calls as the wire asks for.
///
/// `WireFault` comes where one of these calls failed. Then the wire has said those bytes alone that the calls before it took.
pub fn say_all<W: Wire>(wire: &mut W, bytes: &[u8]) -> Result<(), WireFault>
    requires { W.is_open wire.old ≡ true }
    ensures ok { OnOk result (W.told wire.new ≡ option_map (says bytes.now) (W.told wire.old)) }
    ensures err { OnErr result (SaysPart bytes.now (W.told wire.old) (W.told wire.new)) }
    ensures open { W.is_open wire.new ≡ true }
    ensures listens { W.listens wire.new ≡ W.listens wire.old }
    ensures beside { W.beside wire.old wire.new }
    ensures cause { HasCause (W.faults wire.old) (W.faults wire.new) result }
{
    let mut done = 0;
    while done < bytes.len() {
        match wire.write(&bytes[done..]) {
            Ok(count) => done += count,
            Err(fault) => return Err(fault),
        }
    }
    Ok(())
}
