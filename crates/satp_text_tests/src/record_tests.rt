use satp_base::{Amount, Cause, Kind, LedgerOp, Name, Rec, Role, SessionId, Terms, Text, Way};
use satp_records::{RecordFault, Setup, Stored, decode, encode, rec_of};
use std::alloc::Global;

// Rescue of alpha.1
const RESCUE: [u8; 11] = [0x06, 5, b'a', b'l', b'p', b'h', b'a', 0, 0, 0, 1];

// A payload of each kind, written out by hand.
const SETUP: &[u8] =
    b"\x00\x05alpha\x04beta\x0e127.0.0.1:7002\x20\x00\x01\x02\x03\x04\x05\x06\x07\x08\x09\x0a\x0b\x0c\x0d\x0e\x0f\x10\x11\x12\x13\x14\x15\x16\x17\x18\x19\x1a\x1b\x1c\x1d\x1e\x1f";

const BEGAN: &[u8] =
    b"\x01\x05alpha\x00\x00\x00\x01\x01\x00\x00\x00\x00\x00\x00\x00\xfa\x04gold\x03bob\x03ann\x00\x03abc";

const TOOK: &[u8] = b"\x02\x05alpha\x00\x00\x00\x01\x02\x00\x03abc";

const MADE: &[u8] = b"\x03\x05alpha\x00\x00\x01\x00\x0e\x00\x03abc";

const DID: &[u8] = b"\x04\x05alpha\x00\x00\x00\x01\x01";

const CHOSE: &[u8] = b"\x05\x05alpha\x00\x00\x00\x01\x07";

const KIND: &[u8] = b"\x10\x02";

const ASSET: &[u8] = b"\x11\x04gold\x00\x00\x00\x00\x00\x0f\x42\x40";

const HOLD: &[u8] = b"\x12\x04gold\x03ann\x00\x00\x00\x00\x00\x00\x03\xe8";

const ACT: &[u8] =
    b"\x13\x05\x05alpha\x00\x00\x00\x01\x00\x00\x00\x00\x00\x00\x00\xfa\x04gold\x03bob\x03ann";

const EACH_KIND: [&[u8]; 11] = [
    SETUP, BEGAN, TOOK, MADE, DID, CHOSE, &RESCUE, KIND, ASSET, HOLD, ACT,
];

fn comes_back(alloc: Global, payload: &[u8]) -> bool {
    match decode(alloc, payload) {
        Ok(stored) => match encode(alloc, &stored) {
            Ok(again) => again.bytes() == payload,
            Err(_) => false,
        },
        Err(_) => false,
    }
}

fn fault(alloc: Global, payload: &[u8]) -> Option<RecordFault> {
    decode(alloc, payload).err()
}

/// The first place at which the payload may be cut and isn't short there.
fn first_uncut(alloc: Global, payload: &[u8]) -> Option<usize> {
    (0..payload.len()).find(|at| fault(alloc, &payload[..*at])
        != Some(RecordFault::Short { at: *at }))
}

#[test]
fn each_kind_comes_back_and_is_short_where_it_is_cut(rt: HostRuntime) {
    let alloc = rt.alloc();
    let other = EACH_KIND.iter().position(|payload| {
        !comes_back(alloc, payload) || first_uncut(alloc, payload).is_some()
    });
    assert_eq!(rt; other, None);
}

fn rescue_payload(alloc: Global, session: SessionId) -> Option<Text> {
    let stored = Stored::Session {
        session,
        rec: Rec::Rescue,
        text: Text::copy(alloc, b"").ok()?,
    };
    encode(alloc, &stored).ok()
}

fn is_rescue(alloc: Global) -> bool {
    match SessionId::read(b"alpha.1") {
        Ok(session) => match rescue_payload(alloc, session) {
            Some(payload) => payload.bytes() == RESCUE.as_slice(),
            None => false,
        },
        Err(_) => false,
    }
}

fn is_of_alpha(setup: &Setup) -> bool {
    setup.name.bytes() == b"alpha".as_slice()
        && setup.peer.bytes() == b"beta".as_slice()
        && setup.at.bytes() == b"127.0.0.1:7002".as_slice()
        && setup.key.bytes() == &SETUP[28..]
}

fn reads_setup(alloc: Global) -> bool {
    match decode(alloc, SETUP) {
        Ok(Stored::Setup(setup)) => is_of_alpha(&setup),
        _ => false,
    }
}

#[test]
fn a_rescue_is_written_and_a_setup_read(rt: HostRuntime) {
    let alloc = rt.alloc();
    assert_eq!(rt; (is_rescue(alloc), reads_setup(alloc)), (true, true));
}

fn terms() -> Option<Terms> {
    Some(Terms {
        amount: Amount::from(250)?,
        asset: Name::read(b"gold").ok()?,
        beneficiary: Name::read(b"bob").ok()?,
        originator: Name::read(b"ann").ok()?,
    })
}

/// Payloads of two sessions' records.
fn of_sessions(
    first: SessionId,
    later: SessionId,
    terms: Terms,
) -> [(&'static [u8], SessionId, Rec); 6] {
    [
        (BEGAN, first, Rec::Began(Role::Recipient, terms)),
        (TOOK, first, Rec::Took(Kind::ProposalReceipt)),
        (MADE, later, Rec::Made(Kind::RollbackAck)),
        (DID, first, Rec::Did(LedgerOp::Lock)),
        (CHOSE, first, Rec::Chose(Way::Back(Cause::MintCapped))),
        (&RESCUE, first, Rec::Rescue),
    ]
}

/// Whether each of them tells its session and its record.
fn are_told() -> Option<bool> {
    let first = SessionId::read(b"alpha.1").ok()?;
    let later = SessionId::read(b"alpha.256").ok()?;
    let terms = terms()?;
    for (payload, session, rec) in of_sessions(first, later, terms) {
        if rec_of(payload) != Some((session, rec)) {
            return Some(false);
        }
    }
    Some(true)
}

/// Payloads of other records, and of none.
const OF_NO_SESSION: [&[u8]; 7] = [
    SETUP,
    KIND,
    ASSET,
    HOLD,
    ACT,
    b"\x06\x05alpha\x00\x00\x00",
    b"\x06\x05alpha\x00\x00\x00\x01\x00",
];

#[test]
fn the_record_of_a_session_without_its_text(rt: HostRuntime) {
    let other = OF_NO_SESSION
        .iter()
        .position(|payload| rec_of(payload).is_some());
    assert_eq!(rt; (are_told(), other), (Some(true), None));
}

const FAULTS: [(&[u8], RecordFault); 32] = [
    // first bytes of no kind
    (b"\xff", RecordFault::Kind { byte: 0xff }),
    (b"\x07", RecordFault::Kind { byte: 0x07 }),
    (b"\x0f\x01", RecordFault::Kind { byte: 0x0f }),
    (b"\x14", RecordFault::Kind { byte: 0x14 }),
    // bytes behind the last field
    (
        b"\x06\x05alpha\x00\x00\x00\x01\x00",
        RecordFault::Extra { at: 11 },
    ),
    (b"\x10\x01\x01", RecordFault::Extra { at: 2 }),
    // names
    (b"\x06\x00", RecordFault::Value { at: 1 }),
    (b"\x06\x21", RecordFault::Value { at: 1 }),
    (b"\x06\x05A", RecordFault::Short { at: 3 }),
    (b"\x06\x05Alpha", RecordFault::Value { at: 1 }),
    (
        b"\x06\x05Alpha\x00\x00\x00\x00",
        RecordFault::Value { at: 1 },
    ),
    (b"\x12\x04gold\x03a.n", RecordFault::Value { at: 6 }),
    (b"\x00\x05alpha\x05alpha", RecordFault::Value { at: 7 }),
    (b"\x00\x05alpha\x05alph", RecordFault::Short { at: 12 }),
    // an address and a key
    (b"\x00\x05alpha\x04beta\x41", RecordFault::Value { at: 12 }),
    (b"\x00\x05alpha\x04beta\x01/", RecordFault::Value { at: 12 }),
    (
        b"\x00\x05alpha\x04beta\x01h\x1f",
        RecordFault::Value { at: 14 },
    ),
    (
        b"\x00\x05alpha\x04beta\x01h\x41",
        RecordFault::Value { at: 14 },
    ),
    // numbers
    (
        b"\x06\x05alpha\x00\x00\x00\x00",
        RecordFault::Value { at: 7 },
    ),
    (
        b"\x11\x04gold\x00\x00\x00\x00\x00\x00\x00\x00",
        RecordFault::Value { at: 6 },
    ),
    (
        b"\x11\x04gold\x00\x20\x00\x00\x00\x00\x00\x00",
        RecordFault::Value { at: 6 },
    ),
    (b"\x11\x04gold\x00\x20\x00", RecordFault::Short { at: 9 }),
    // bytes that stand for a role, a kind, an operation, a decision, a kind of ledger
    (
        b"\x01\x05alpha\x00\x00\x00\x01\x02",
        RecordFault::Value { at: 11 },
    ),
    (
        b"\x02\x05alpha\x00\x00\x00\x01\x01",
        RecordFault::Value { at: 11 },
    ),
    (
        b"\x03\x05alpha\x00\x00\x00\x01\x0f",
        RecordFault::Value { at: 11 },
    ),
    (
        b"\x04\x05alpha\x00\x00\x00\x01\x06",
        RecordFault::Value { at: 11 },
    ),
    (
        b"\x05\x05alpha\x00\x00\x00\x01\x09",
        RecordFault::Value { at: 11 },
    ),
    (b"\x13\x00", RecordFault::Value { at: 1 }),
    (b"\x10\x03", RecordFault::Value { at: 1 }),
    // texts
    (
        b"\x02\x05alpha\x00\x00\x00\x01\x02\x00\x00",
        RecordFault::Value { at: 12 },
    ),
    (
        b"\x02\x05alpha\x00\x00\x00\x01\x02\x08\x01",
        RecordFault::Value { at: 12 },
    ),
    (
        b"\x02\x05alpha\x00\x00\x00\x01\x02\x08\x00",
        RecordFault::Short { at: 14 },
    ),
];

#[test]
fn the_first_fault_is_answered(rt: HostRuntime) {
    let alloc = rt.alloc();
    let other = FAULTS
        .iter()
        .position(|(payload, wanted)| fault(alloc, payload) != Some(*wanted));
    assert_eq!(rt; other, None);
}
