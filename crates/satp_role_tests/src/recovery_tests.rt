ghost use Rattle.std.specs.Prelude.{◌≤◌};

use satp_base::{Head, Link};
use satp_recovery::{RecoveryFault, Step, agree, answer, take};

const LAST: Link = Link([1; 32]);

const BEFORE: Link = Link([2; 32]);

const OTHER: Link = Link([3; 32]);

/// A chain of five messages.
fn kept() -> Head
    ensures { result.length ≤ 11 }
{
    Head {
        length: 5,
        last: LAST,
        before: BEFORE,
    }
}

fn other(kept: Link, given: Link) -> RecoveryFault {
    RecoveryFault::OtherHash { kept, given }
}

#[test]
fn answers_by_length_and_link(rt: HostRuntime) {
    let table = [
        (3, LAST, Err(RecoveryFault::Shorter { by: 2 })),
        (0, OTHER, Err(RecoveryFault::Shorter { by: 5 })),
        (4, BEFORE, Ok(1)),
        (4, LAST, Err(other(BEFORE, LAST))),
        (5, LAST, Ok(0)),
        (5, BEFORE, Err(other(LAST, BEFORE))),
        (6, OTHER, Ok(0)),
        (7, LAST, Err(RecoveryFault::Longer { by: 2 })),
        (255, LAST, Err(RecoveryFault::Longer { by: 250 })),
    ];
    for (length, last, wanted) in table {
        assert!(rt; answer(&kept(), length, last) == wanted, "at {length}");
    }
}

#[test]
fn takes_by_length_and_entries(rt: HostRuntime) {
    let table = [
        (3, 0, Err(RecoveryFault::Shorter { by: 2 })),
        (4, 0, Ok(Step::Resend { place: 5 })),
        (4, 1, Err(RecoveryFault::EntryRefused { place: 6 })),
        (5, 0, Ok(Step::Equal)),
        (5, 2, Err(RecoveryFault::EntryRefused { place: 6 })),
        (6, 0, Err(RecoveryFault::EntryRefused { place: 6 })),
        (6, 1, Ok(Step::Adopt { place: 6 })),
        (6, 2, Err(RecoveryFault::EntryRefused { place: 7 })),
        (7, 2, Err(RecoveryFault::Longer { by: 2 })),
    ];
    for (length, entries, wanted) in table {
        assert!(rt;
            take(&kept(), length, entries) == wanted,
            "at {length} with {entries}"
        );
    }
}

#[test]
fn agrees_on_equal_chains_alone(rt: HostRuntime) {
    let table = [
        (4, BEFORE, Err(RecoveryFault::Shorter { by: 1 })),
        (5, LAST, Ok(())),
        (5, OTHER, Err(other(LAST, OTHER))),
        (6, LAST, Err(RecoveryFault::Longer { by: 1 })),
    ];
    for (length, last, wanted) in table {
        assert!(rt; agree(&kept(), length, last) == wanted, "at {length}");
    }
}
