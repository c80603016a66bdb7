use crate::grown::put;
use satp_base::{Amount, Genesis, GenesisFault, Name, Text};
use std::alloc::Global;

/// The fault of a text; none where it is read.
fn fault(alloc: Global, text: &[u8]) -> Option<GenesisFault> {
    Genesis::read(alloc, text).err()
}

fn line(number: u32) -> Option<GenesisFault> {
    Some(GenesisFault::Line { number })
}

/// Texts, and the first line of each that is refused.
const REFUSED: [(&[u8], u32); 23] = [
    (b"asset gold 0\n", 1),
    (b"asset gold 9007199254740992\n", 1),
    (b"asset gold 01\n", 1),
    (b"asset gold +1\n", 1),
    (b"asset gold\n", 1),
    (b"asset gold 1 1\n", 1),
    (b"asset  gold 1\n", 1),
    (b"asset gold 1 \n", 1),
    (b" asset gold 1\n", 1),
    (b"asset\tgold 1\n", 1),
    (b"asset gold 1\r\n", 1),
    (b"asset Gold 1\n", 1),
    (b"Asset gold 1\n", 1),
    (b"asset gold 1\n\n", 2),
    (b"asset gold 1\nasset silver 1\nasset gold 2\n", 3),
    (b"asset gold 1\nhold silver ann 1\nasset silver 1\n", 2),
    (b"hold gold ann 1\nasset gold 1\n", 1),
    (b"asset gold 10\nhold gold ann 11\n", 2),
    (b"asset gold 10\nhold gold ann 4\nhold gold bob 7\n", 3),
    (
        b"asset gold 9007199254740991\nhold gold ann 9007199254740991\nhold gold ann 9007199254740991\n",
        3,
    ),
    (b"asset gold 10\nhold gold ann 0\n", 2),
    (b"asset gold 10\nhold gold ann 10", 2),
    (
        b"asset gold 1000000\nhold gold ann 10000\nasset silver 9007199254740991\nhold gold bob 990000\nhold silver ann 1\nhold gold-1 x 1\n",
        6,
    ),
];

fn first_read(alloc: Global) -> Option<usize> {
    REFUSED
        .iter()
        .position(|(text, number)| fault(alloc, text) != line(*number))
}

#[test]
fn the_first_faulty_line_is_refused(rt: HostRuntime) {
    let alloc = rt.alloc();
    let text = b"asset gold 10\nhold gold ann 4\nhold gold bob 6\n";
    assert_eq!(rt; (first_read(alloc), fault(alloc, text)), (None, None));
}

fn name(text: &[u8]) -> Option<Name> {
    Name::read(text).ok()
}

/// The assets and the holdings at the first places, one past the last, and the caps of a name with an asset and of one
/// without.
type Found = (
    [Option<(Name, Amount)>; 3],
    [Option<(Name, Name, Amount)>; 3],
    [Option<Amount>; 2],
);

fn found(genesis: &Genesis, gold: Name, ann: Name) -> Found {
    (
        [
            genesis.asset_at(0),
            genesis.asset_at(1),
            genesis.asset_at(2),
        ],
        [genesis.hold_at(0), genesis.hold_at(1), genesis.hold_at(2)],
        [genesis.cap(gold), genesis.cap(ann)],
    )
}

fn wanted(gold: Name, ann: Name) -> Option<Found> {
    let silver = name(b"silver")?;
    let cap = Amount::from(1_000_000)?;
    let most = Amount::from(9_007_199_254_740_991)?;
    let first = Amount::from(10_000)?;
    let second = Amount::from(990_000)?;
    Some((
        [Some((gold, cap)), Some((silver, most)), None],
        [Some((gold, ann, first)), Some((gold, ann, second)), None],
        [Some(cap), None],
    ))
}

fn reads(alloc: Global, text: &[u8], gold: Name, ann: Name) -> Option<Found> {
    match Genesis::read(alloc, text) {
        Ok(genesis) => Some(found(&genesis, gold, ann)),
        Err(_) => None,
    }
}

fn are_read_in_order(alloc: Global) -> Option<bool> {
    let gold = name(b"gold")?;
    let ann = name(b"ann")?;
    let text =
        b"asset gold 1000000\nhold gold ann 10000\nasset silver 9007199254740991\nhold gold ann 990000\n";
    let nothing = ([None; 3], [None; 3], [None; 2]);
    let is_empty = reads(alloc, b"", gold, ann) == Some(nothing);
    Some(is_empty && reads(alloc, text, gold, ann) == wanted(gold, ann))
}

#[test]
fn assets_and_holdings_are_read_in_order(rt: HostRuntime) {
    assert_eq!(rt; are_read_in_order(rt.alloc()), Some(true));
}

/// Seventeen assets, in lines of ten bytes.
const ASSETS: &[u8] =
    b"asset a 1\nasset b 1\nasset c 1\nasset d 1\nasset e 1\nasset f 1\nasset g 1\nasset h 1\nasset i 1\nasset j 1\nasset k 1\nasset l 1\nasset m 1\nasset n 1\nasset o 1\nasset p 1\nasset q 1\n";

/// The fault of a text with a piece so many times over.
fn grown_fault(alloc: Global, first: &[u8], piece: &[u8], times: usize) -> Option<GenesisFault> {
    match Text::copy(alloc, first) {
        Ok(mut text) => {
            put(&mut text, piece, times);
            fault(alloc, text.bytes())
        }
        Err(_) => Some(GenesisFault::Memory),
    }
}

#[test]
fn lengths_have_limits(rt: HostRuntime) {
    let alloc = rt.alloc();
    let asset = b"asset gold 1000\n".as_slice();
    let hold = b"hold gold ann 1\n".as_slice();
    let faults = [
        fault(alloc, &ASSETS[..160]),
        fault(alloc, ASSETS),
        grown_fault(alloc, asset, hold, 256),
        grown_fault(alloc, asset, hold, 257),
        grown_fault(alloc, asset, b"a", 65_520),
        grown_fault(alloc, asset, b"a", 65_521),
    ];
    let wanted = [
        None,
        line(17),
        None,
        line(258),
        line(2),
        Some(GenesisFault::Long { length: 65_537 }),
    ];
    assert_eq!(rt; faults, wanted);
}
