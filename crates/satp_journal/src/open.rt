ghost use Rattle.std.specs.Prelude.{◌≡◌, ◌≢◌, ◌≤◌, [], IfOk, IfErr, IfSome, OnOk, OnErr, length, option_map, take};
ghost use Rattle.std.specs.Option.{ForSome};
ghost use Rattle.satp_base.specs.Calls.{FailsAmong, Makes, call_failed, made};
ghost use Rattle.satp_base.specs.Segments.{wants_gate};
ghost use Rattle.satp_base.specs.Streams.{HasCause, Rose};
ghost use Rattle.satp_base.specs.Trail.{seen};
ghost use Rattle.satp_journal.specs.Opening.{IsRead, ReadFails, mend_calls, read_calls};
ghost use Rattle.satp_journal.specs.declared.fault.JournalFault.{JournalFault};

use crate::fault::JournalFault;
use crate::store::{CLOSED, shut};
use satp_base::{Area, Disk, DiskFault};
use std::alloc::Global;

/// Syncs an area, and reads all its bytes.
pub fn read_synced<D: Disk>(
    alloc: Global,
    disk: &mut D,
    area: Area,
) -> Result<Vec<u8>, JournalFault>
    ensures ok { IfOk result (λ image. IsRead area (D.told disk.old) image.items × Makes (read_calls area) (D.told disk.old) (D.told disk.new)) }
    ensures err { IfErr result (ReadFails area (D.told disk.old) (D.told disk.new)) }
    ensures ledger { D.book disk.new ≡ D.book disk.old }
    ensures beside { D.beside disk.old disk.new }
    ensures later { D.faults disk.old ≤ D.faults disk.new }
    ensures cause { IfErr result (λ fault. fault ≡ JournalFault.Disk → Rose (D.faults disk.old) (D.faults disk.new)) }
    ensures kept { OnOk result (D.faults disk.new ≡ D.faults disk.old) }
    ensures still { IfErr result (λ fault. fault ≢ JournalFault.Disk → D.faults disk.new ≡ D.faults disk.old) }
{
    disk.sync(area)?;
    let length = disk.length(area)?;
    let buffer = vec![in alloc; 0; length as usize]?;
    let bytes = read_first(disk, area, buffer)?;
    Ok(bytes)
}

/// Reads an area's first bytes into a buffer, as many as it has room for. What a shorter read didn't fill is cut off.
fn read_first<D: Disk>(disk: &mut D, area: Area, buffer: Vec<u8>) -> Result<Vec<u8>, DiskFault>
    ensures bytes { IfOk result (λ image. IfSome (D.told disk.old) (λ t. image.items ≡ take (length buffer.items) (seen t.trail area))) }
    ensures bound { IfOk result (λ image. length image.items ≤ length buffer.items) }
    ensures ok { OnOk result (D.told disk.new ≡ option_map (made 1 []) (D.told disk.old)) }
    ensures err { OnErr result (D.told disk.new ≡ option_map (call_failed []) (D.told disk.old)) }
    ensures ledger { D.book disk.new ≡ D.book disk.old }
    ensures beside { D.beside disk.old disk.new }
    ensures cause { HasCause (D.faults disk.old) (D.faults disk.new) result }
{
    let mut bytes = buffer;
    let count = disk.read(area, 0, &mut bytes)?;
    bytes.truncate(count);
    Ok(bytes)
}

/// Writes a closed gate where the one after the list of an image isn't 0, or the image is empty.
pub fn mend<D: Disk>(disk: &mut D, area: Area, image: &[u8], gate: usize) -> Result<(), DiskFault>
    requires { ForSome (D.told disk.old) (λ t. gate ≤ length (seen t.trail area)) }
    ensures ok { OnOk result (Makes (mend_calls area image.now gate) (D.told disk.old) (D.told disk.new)) }
    ensures err { OnErr result (FailsAmong (mend_calls area image.now gate) (D.told disk.old) (D.told disk.new)) }
    ensures ledger { D.book disk.new ≡ D.book disk.old }
    ensures beside { D.beside disk.old disk.new }
    ensures cause { HasCause (D.faults disk.old) (D.faults disk.new) result }
{
    if wants_gate(image, gate) {
        return shut(disk, area, gate as u64);
    }
    Ok(())
}

fn wants_gate(image: &[u8], gate: usize) -> bool
    ensures { result ≡ wants_gate image.now gate }
{
    image.is_empty() || (gate < image.len() && image[gate] != CLOSED)
}
