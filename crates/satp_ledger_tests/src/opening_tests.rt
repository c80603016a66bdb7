use satp_accounts::Accounts;
use satp_base::{Area, Disk, Text};
use satp_keeper::{KeeperFault, Kept};
use satp_memory::MemDisk;
use std::alloc::Global;

/// Adds a record of a journal, of a payload of fewer than 256 bytes.
fn add_record(bytes: &mut Text, payload: &[u8]) -> bool {
    match u8::try_from(payload.len()) {
        Ok(size) => bytes.append(&[1, 0, size]).is_ok() && bytes.append(payload).is_ok(),
        Err(_) => false,
    }
}

fn add_records(bytes: &mut Text, payloads: &[&[u8]]) -> bool {
    for payload in payloads {
        if !add_record(bytes, payload) {
            return false;
        }
    }
    bytes.append(b"\x00").is_ok()
}

fn opening_of(alloc: Global, disk: MemDisk) -> Option<KeeperFault> {
    match Kept::<Accounts, MemDisk>::open(alloc, disk) {
        Ok(_) => None,
        Err(unopened) => Some(unopened.fault),
    }
}

/// Why a ledger with these bytes in its area isn't opened.
fn fault_of(alloc: Global, bytes: &[u8]) -> Option<KeeperFault> {
    match MemDisk::new(alloc) {
        Ok(mut disk) => {
            let _ = disk.write(Area::Ledger, 0, bytes);
            opening_of(alloc, disk)
        }
        Err(_) => Some(KeeperFault::Memory),
    }
}

/// Why a ledger with a journal of these payloads isn't opened.
fn fault_of_payloads(alloc: Global, payloads: &[&[u8]]) -> Option<KeeperFault> {
    match Text::copy(alloc, b"") {
        Ok(mut bytes) => {
            if add_records(&mut bytes, payloads) {
                fault_of(alloc, bytes.bytes())
            } else {
                Some(KeeperFault::Memory)
            }
        }
        Err(_) => Some(KeeperFault::Memory),
    }
}

// The payloads of a ledger's records, the bytes by hand.

const ACCOUNTS: &[u8] = b"\x10\x01";

const OUTPUTS: &[u8] = b"\x10\x02";

const GOLD: &[u8] = b"\x11\x04gold\x00\x00\x00\x00\x00\x0f\x42\x40";

const IRON: &[u8] = b"\x11\x04iron\x00\x00\x00\x00\x00\x0f\x42\x40";

const ANN: &[u8] = b"\x12\x04gold\x03ann\x00\x00\x00\x00\x00\x00\x00\x64";

/// One more than the cap.
const RICH: &[u8] = b"\x12\x04gold\x03ann\x00\x00\x00\x00\x00\x0f\x42\x41";

const LOCK: &[u8] =
    b"\x13\x01\x05alpha\x00\x00\x00\x01\x00\x00\x00\x00\x00\x00\x00\x64\x04gold\x03bob\x03ann";

const BURN: &[u8] =
    b"\x13\x02\x05alpha\x00\x00\x00\x01\x00\x00\x00\x00\x00\x00\x00\x64\x04gold\x03bob\x03ann";

const RESCUE: &[u8] = b"\x06\x05alpha\x00\x00\x00\x01";

/// The payloads of a journal, and the index of the one that is refused.
const REFUSED: [(&[&[u8]], usize); 13] = [
    // the first record names the kind
    (&[OUTPUTS], 0),
    (&[GOLD], 0),
    (&[b"\x07"], 0),
    (&[ACCOUNTS, ACCOUNTS], 1),
    // the genesis refuses what it doesn't take
    (&[ACCOUNTS, ANN], 1),
    (&[ACCOUNTS, RESCUE], 1),
    (&[ACCOUNTS, GOLD, GOLD], 2),
    (&[ACCOUNTS, GOLD, RICH], 2),
    (&[ACCOUNTS, GOLD, ANN, IRON], 3),
    // an operation that isn't done is refused
    (&[ACCOUNTS, GOLD, LOCK], 2),
    (&[ACCOUNTS, GOLD, ANN, BURN], 3),
    (&[ACCOUNTS, GOLD, ANN, LOCK, ANN], 4),
    (&[ACCOUNTS, GOLD, ANN, LOCK, LOCK, BURN, BURN, b"\x13"], 7),
];

#[test]
fn the_first_record_that_does_not_fit_is_named(rt: HostRuntime) {
    for (payloads, index) in REFUSED {
        let fault = Some(KeeperFault::Record { index });
        assert!(rt; fault_of_payloads(rt.alloc(), payloads) == fault);
    }
}

const PREFIXES: [&[&[u8]]; 3] = [
    &[ACCOUNTS],
    &[ACCOUNTS, GOLD, IRON],
    &[ACCOUNTS, GOLD, ANN, LOCK],
];

#[test]
fn a_prefix_of_the_records_is_a_ledger(rt: HostRuntime) {
    for payloads in PREFIXES {
        assert!(rt; fault_of_payloads(rt.alloc(), payloads) == None);
    }
}

#[test]
fn no_record_and_damage_are_told_apart(rt: HostRuntime) {
    let faults = [
        fault_of(rt.alloc(), b""),
        fault_of(rt.alloc(), b"\x01\x00\x02\x10\x01\x01\x00"),
    ];
    let damaged = KeeperFault::Damaged { at: 5 };
    assert!(rt; faults == [Some(KeeperFault::Empty), Some(damaged)]);
}
