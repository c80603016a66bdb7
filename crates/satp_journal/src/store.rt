ghost use Rattle.std.specs.Prelude.{◌≡◌, ◌≤◌, ◌<◌, ◌+◌, ◌^◌, ◌-◌, ◌++◌, ◌∷◌, [], length, take, option_map, OnOk, OnErr};
ghost use Rattle.std.specs.Option.{ForSome};
ghost use Rattle.satp_base.specs.Streams.{HasCause};
ghost use Rattle.satp_base.specs.Trail.{seen};
ghost use Rattle.satp_base.specs.Calls.{made, calls_of, FailsAmong};
ghost use Rattle.satp_base.specs.Format.{counted};
ghost use Rattle.satp_base.specs.Segments.{append_events, frame_events, shut_events};

use crate::scan::OPEN;
use satp_base::{Area, Disk, DiskFault};

/// The value of the closed gate that ends a list.
pub const CLOSED: u8 = 0;

/// The most bytes of a payload.
const MOST: usize = 4096;

/// Two bytes of length before a payload, and a gate behind it.
const AROUND: usize = 3;

/// Stores a payload behind the closed gate: what stands behind the gate is synced before the gate is opened.
pub fn store<D: Disk>(disk: &mut D, area: Area, gate: u64, payload: &[u8]) -> Result<(), DiskFault>
    requires there { ForSome (D.told disk.old) (λ t. gate < length (seen t.trail area)) }
    requires room { gate + 1 < 2 ^ 64 }
    requires most { length payload.now ≤ 4096 }
    ensures ok { OnOk result (D.told disk.new ≡ option_map (made 4 (append_events area gate payload.now)) (D.told disk.old)) }
    ensures err { OnErr result (FailsAmong (calls_of (append_events area gate payload.now)) (D.told disk.old) (D.told disk.new)) }
    ensures fits { OnOk result (gate + length payload.now + 4 ≤ 2 ^ 64 - 1) }
    ensures ledger { D.book disk.new ≡ D.book disk.old }
    ensures beside { D.beside disk.old disk.new }
    ensures cause { HasCause (D.faults disk.old) (D.faults disk.new) result }
{
    let mut frame = [0; MOST + AROUND];
    fill(&mut frame, payload);
    store_frame(disk, area, gate, &frame[..payload.len() + AROUND])
}

/// Puts the length, the payload and a closed gate to the front of a frame.
fn fill(frame: &mut [u8], payload: &[u8])
    requires room { length payload.now + 3 ≤ length frame.old }
    requires most { length payload.now ≤ 4096 }
    ensures { take (length payload.now + 3) frame.new ≡ counted payload.now ++ 0 ∷ [] }
{
    let size = payload.len();
    frame[0] = (size / 256) as u8;
    frame[1] = (size % 256) as u8;
    frame[2..size + 2].copy_from_slice(payload);
    frame[size + 2] = CLOSED;
}

fn store_frame<D: Disk>(disk: &mut D, area: Area, gate: u64, frame: &[u8]) -> Result<(), DiskFault>
    requires there { ForSome (D.told disk.old) (λ t. gate < length (seen t.trail area)) }
    requires room { gate + 1 < 2 ^ 64 }
    ensures ok { OnOk result (D.told disk.new ≡ option_map (made 4 (frame_events area gate frame.now)) (D.told disk.old)) }
    ensures err { OnErr result (FailsAmong (calls_of (frame_events area gate frame.now)) (D.told disk.old) (D.told disk.new)) }
    ensures fits { OnOk result (gate + 1 + length frame.now ≤ 2 ^ 64 - 1) }
    ensures ledger { D.book disk.new ≡ D.book disk.old }
    ensures beside { D.beside disk.old disk.new }
    ensures cause { HasCause (D.faults disk.old) (D.faults disk.new) result }
{
    disk.write(area, gate + 1, frame)?;
    disk.sync(area)?;
    disk.write(area, gate, &[OPEN])?;
    disk.sync(area)?;
    Ok(())
}

/// Writes a closed gate, and syncs it.
pub fn shut<D: Disk>(disk: &mut D, area: Area, gate: u64) -> Result<(), DiskFault>
    requires there { ForSome (D.told disk.old) (λ t. gate ≤ length (seen t.trail area)) }
    ensures ok { OnOk result (D.told disk.new ≡ option_map (made 2 (shut_events area gate)) (D.told disk.old)) }
    ensures err { OnErr result (FailsAmong (calls_of (shut_events area gate)) (D.told disk.old) (D.told disk.new)) }
    ensures ledger { D.book disk.new ≡ D.book disk.old }
    ensures beside { D.beside disk.old disk.new }
    ensures cause { HasCause (D.faults disk.old) (D.faults disk.new) result }
{
    disk.write(area, gate, &[CLOSED])?;
    disk.sync(area)?;
    Ok(())
}
