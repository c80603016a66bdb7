use crate::canon_rows::{CANONICAL, OTHERS, PROPOSALS, Row, SPELLINGS};
use crate::grown::Grown;
use satp_canon::{CanonFault, MemberName, read, write};
use std::alloc::Global;

/// The fault of a text; none where it is read, and written again as it was. No test runs out of memory.
pub fn fault(alloc: Global, text: &[u8]) -> Option<CanonFault> {
    match read(alloc, text) {
        Ok(message) => match write(alloc, &message) {
            Ok(again) if again.bytes() == text => None,
            _ => Some(CanonFault::Memory),
        },
        Err(fault) => Some(fault),
    }
}

/// The first row whose text has another fault.
fn first_other(alloc: Global, rows: &[Row]) -> Option<usize> {
    rows.iter()
        .position(|(text, wanted)| fault(alloc, text.as_bytes()) != *wanted)
}

#[test]
fn each_text_has_its_first_fault(rt: HostRuntime) {
    let alloc = rt.alloc();
    let others = [
        first_other(alloc, &CANONICAL),
        first_other(alloc, &PROPOSALS),
        first_other(alloc, &OTHERS),
        first_other(alloc, &SPELLINGS),
    ];
    assert_eq!(rt; others, [None; 4]);
}

/// A text of 156 bytes.
const ROLLBACK: &[u8] =
    b"{\"kind\":\"rollback\",\"previous\":\"AAAAAAAAAAAAAAAAAAAAAAAAAAAAAAAAAAAAAAAAAAA\",\"receiver\":\"beta\",\"sender\":\"alpha\",\"sequence\":3,\"session\":\"alpha.1\",\"version\":1}";

/// An object whose member `x` is an empty array in so many others.
fn nested(times: usize) -> Grown {
    Grown {
        first: b"{\"kind\":\"rollback\",\"x\":",
        open: b"[",
        close: b"]",
        times,
        last: b"}",
    }
}

/// A text so many spaces longer.
fn spaced(first: &'static [u8], times: usize) -> Grown {
    Grown {
        first,
        open: b" ",
        close: b"",
        times,
        last: b"",
    }
}

/// An update with an entry of so many bytes.
fn update(times: usize) -> Grown {
    Grown {
        first: b"{\"entries\":[\"",
        open: b"a",
        close: b"",
        times,
        last: b"\"],\"kind\":\"recover-update\",\"length\":11,\"receiver\":\"alpha\",\"sender\":\"beta\",\"session\":\"alpha.1\",\"version\":1}",
    }
}

fn limits() -> [(Grown, Option<CanonFault>); 9] {
    [
        (spaced(ROLLBACK, 0), None),
        // 8,192 bytes, and one more
        (
            spaced(ROLLBACK, 8036),
            Some(CanonFault::NotCanonical { at: 156 }),
        ),
        (
            spaced(ROLLBACK, 8037),
            Some(CanonFault::Long { length: 8193 }),
        ),
        (spaced(b"", 8192), Some(CanonFault::NotJson)),
        (spaced(b"\"\xff\"", 0), Some(CanonFault::NotJson)),
        (nested(200), Some(CanonFault::NotJson)),
        (
            nested(100),
            Some(CanonFault::Member {
                which: MemberName::Previous,
            }),
        ),
        (update(2048), None),
        (
            update(2049),
            Some(CanonFault::Value {
                which: MemberName::Entries,
            }),
        ),
    ]
}

fn limit_fault(alloc: Global, grown: &Grown) -> Option<CanonFault> {
    match grown.text(alloc) {
        Ok(text) => fault(alloc, text.bytes()),
        Err(_) => Some(CanonFault::Memory),
    }
}

#[test]
fn lengths_and_nesting_have_limits(rt: HostRuntime) {
    let alloc = rt.alloc();
    let other = limits()
        .iter()
        .position(|(grown, wanted)| limit_fault(alloc, grown) != *wanted);
    assert_eq!(rt; other, None);
}
