use crate::equalities::{same_addresses, same_names};
use satp_base::{
    Address, Amount, AmountFault, Name, NameFault, SessionFault, SessionId, Text, Texts,
    read_number,
};
use std::alloc::Global;

const LONGEST_NAME: &[u8] = b"abcdefghijklmnopqrstuvwxyz-01289";

/// Texts, and the fault of each as a name; none where it is one.
const NAMES: [(&[u8], Option<NameFault>); 6] = [
    (b"alpha", None),
    (LONGEST_NAME, None),
    (b"", Some(NameFault::Empty)),
    (
        b"abcdefghijklmnopqrstuvwxyz-012893",
        Some(NameFault::Long { length: 33 }),
    ),
    (b"alphA", Some(NameFault::BadByte { at: 4 })),
    (b"al.ph_a", Some(NameFault::BadByte { at: 2 })),
];

/// The same for addresses.
const ADDRESSES: [(&[u8], Option<NameFault>); 6] = [
    (b"[::1]:7002", None),
    (b"Gate-1.example:80", None),
    (&[b'a'; 64], None),
    (b"", Some(NameFault::Empty)),
    (&[b'a'; 65], Some(NameFault::Long { length: 65 })),
    (b"host/path", Some(NameFault::BadByte { at: 4 })),
];

/// The same for amounts.
const AMOUNTS: [(&[u8], Option<AmountFault>); 7] = [
    (b"1", None),
    (b"9007199254740991", None),
    (b"0", Some(AmountFault::Range)),
    (b"9007199254740992", Some(AmountFault::Range)),
    (b"", Some(AmountFault::Empty)),
    (b"01", Some(AmountFault::Leading)),
    (b"250.0", Some(AmountFault::BadByte { at: 3 })),
];

/// The same for sessions.
const SESSIONS: [(&[u8], Option<SessionFault>); 7] = [
    (b"alpha.4294967295", None),
    (b"alpha", Some(SessionFault::NoStop)),
    (
        b".1",
        Some(SessionFault::Name {
            fault: NameFault::Empty,
        }),
    ),
    (b"alpha.1.2", Some(SessionFault::Number)),
    (b"alpha.0", Some(SessionFault::Number)),
    (b"alpha.01", Some(SessionFault::Number)),
    (b"alpha.4294967296", Some(SessionFault::Number)),
];

/// The first name, address, amount and session with another fault.
fn first_others() -> [Option<usize>; 4] {
    [
        NAMES
            .iter()
            .position(|(text, wanted)| Name::read(text).err() != *wanted),
        ADDRESSES
            .iter()
            .position(|(text, wanted)| Address::read(text).err() != *wanted),
        AMOUNTS
            .iter()
            .position(|(text, wanted)| Amount::read(text).err() != *wanted),
        SESSIONS
            .iter()
            .position(|(text, wanted)| SessionId::read(text).err() != *wanted),
    ]
}

#[test]
fn each_text_of_a_value_has_its_first_fault(rt: HostRuntime) {
    assert_eq!(rt; first_others(), [None; 4]);
}

fn number(text: &[u8]) -> Option<u64> {
    Some(Amount::read(text).ok()?.get())
}

/// Whether names and addresses hold their bytes, and differ where those do.
fn hold_their_bytes() -> Option<[bool; 5]> {
    let name = Name::read(LONGEST_NAME).ok()?;
    let other = Name::read(b"alpha").ok()?;
    let address = Address::read(b"[::1]:7002").ok()?;
    Some([
        name.bytes() == LONGEST_NAME,
        same_names(name, name),
        !same_names(name, other),
        address.bytes() == b"[::1]:7002".as_slice(),
        same_addresses(address, address),
    ])
}

fn is_of_alpha() -> Option<bool> {
    let session = SessionId::read(b"alpha.4294967295").ok()?;
    let alpha = Name::read(b"alpha").ok()?;
    Some(session.gateway == alpha && session.number == 4_294_967_295)
}

#[test]
fn values_are_those_of_their_texts(rt: HostRuntime) {
    let numbers = (
        [number(b"1"), number(b"9007199254740991")],
        [read_number(b"17"), read_number(b"+17")],
    );
    let amounts = (
        [Amount::from(0), Amount::from(9_007_199_254_740_992)],
        Amount::from(250) == Amount::read(b"250").ok(),
    );
    let found = (hold_their_bytes(), is_of_alpha(), numbers, amounts);
    let wanted = (
        Some([true; 5]),
        Some(true),
        ([Some(1), Some(Amount::MAX)], [Some(17), None]),
        ([None, None], true),
    );
    assert!(rt; found == wanted);
}

fn abcd(alloc: Global) -> Option<Text> {
    let mut text = Text::copy(alloc, b"ab").ok()?;
    let _ = text.append(b"cd");
    Some(text)
}

fn push(alloc: Global, texts: &mut Texts) -> bool {
    match abcd(alloc) {
        Some(text) => texts.push(text).is_ok(),
        None => false,
    }
}

fn has_one(texts: &Texts) -> bool {
    let first = match texts.get(0) {
        Some(text) => text.bytes() == b"abcd".as_slice(),
        None => false,
    };
    first && texts.length() == 1 && texts.get(1).is_none()
}

fn are_kept(alloc: Global) -> bool {
    let mut texts = Texts::new(alloc);
    push(alloc, &mut texts) && has_one(&texts)
}

#[test]
fn texts_are_kept_in_order(rt: HostRuntime) {
    assert!(rt; are_kept(rt.alloc()));
}
