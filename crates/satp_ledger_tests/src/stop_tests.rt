use crate::fixture::{
    Found, Given, KeptAccounts, Opened, Trouble, act, found_new, make_given, restart_and_open,
};
use satp_base::{Entry, LedgerOp};
use satp_keeper::KeeperFault;
use std::alloc::Global;

/// The picks of what a stop leaves: the old bytes, the new ones, and bytes of other values.
const PICKS: [u32; 4] = [0, 1, 7, 257];

/// An append makes four events, and its record is there after the third exactly where the gate reads 1.
fn is_stored(events: u64, pick: u32) -> bool {
    events == 4 || (events == 3 && pick % 256 == 1)
}

/// What a founding that failed on its disk leaves after a restart.
fn left_unfounded(alloc: Global, given: &Given, found: Found) -> Option<Opened> {
    match found {
        Ok(_) => None,
        Err(unopened) => match unopened.fault {
            KeeperFault::Disk => Some(restart_and_open(alloc, given, unopened.disk)),
            _ => None,
        },
    }
}

/// How many records a founding leaves that stops after so many events: it has a ledger without entries where there are any.
fn records_left(alloc: Global, events: u64, pick: u32) -> Option<usize> {
    let given = make_given()?;
    let found = found_new(alloc, Trouble::Stop(events, pick))?;
    match left_unfounded(alloc, &given, found)? {
        (Ok((Entry::Absent, _)), count) => count,
        (Err(KeeperFault::Empty), Some(0)) => Some(0),
        _ => None,
    }
}

/// On an empty disk the cut and the opening make four events, and each of the three records four.
fn records_wanted(events: u64, pick: u32) -> usize {
    let stored = is_stored(events % 4, pick);
    let before = (events / 4).saturating_sub(1) as usize;
    if events >= 4 && stored {
        before.saturating_add(1)
    } else {
        before
    }
}

#[test]
fn a_founding_that_stops_leaves_its_first_records(rt: HostRuntime) {
    for pick in PICKS {
        for events in 0..16 {
            let records = records_left(rt.alloc(), events, pick);
            assert!(rt;
                records == Some(records_wanted(events, pick)),
                "after {events} with {pick}"
            );
        }
    }
}

/// A line of the table: the operation before, the one that stops, and the entry before and after it.
#[derive(Clone, Copy)]
struct Line {
    first: Option<LedgerOp>,
    op: LedgerOp,
    before: Entry,
    after: Entry,
}

const fn make_line(first: Option<LedgerOp>, op: LedgerOp, before: Entry, after: Entry) -> Line {
    Line {
        first,
        op,
        before,
        after,
    }
}

/// Whether the operation before is done, and the one that stops exactly where all four of its events are there.
fn stops(ledger: &mut KeptAccounts, given: &Given, line: Line, events: u64) -> bool {
    let begun = match line.first {
        Some(op) => act(ledger, given, op).is_ok(),
        None => true,
    };
    begun && act(ledger, given, line.op).is_ok() == (events == 4)
}

/// The entry that an opening finds after an operation that stops after so many events. A founding makes 16, and an operation before four.
fn entry_left(alloc: Global, line: Line, events: u64, pick: u32) -> Option<Entry> {
    let given = make_given()?;
    let before = if line.first.is_some() { 20 } else { 16 };
    let trouble = Trouble::Stop(events.saturating_add(before), pick);
    match found_new(alloc, trouble)? {
        Ok(mut ledger) => {
            let stopped = stops(&mut ledger, &given, line, events);
            let opened = restart_and_open(alloc, &given, ledger.into_disk());
            match opened.0 {
                Ok((entry, _)) if stopped => Some(entry),
                _ => None,
            }
        }
        Err(_) => None,
    }
}

fn is_left(alloc: Global, line: Line, events: u64, pick: u32) -> bool {
    let wanted = if is_stored(events, pick) {
        line.after
    } else {
        line.before
    };
    entry_left(alloc, line, events, pick) == Some(wanted)
}

#[test]
fn an_operation_that_stops_is_done_or_not_begun(rt: HostRuntime) {
    for line in [
        make_line(None, LedgerOp::Lock, Entry::Absent, Entry::Locked),
        make_line(None, LedgerOp::Mint, Entry::Absent, Entry::Minted),
        make_line(None, LedgerOp::Release, Entry::Absent, Entry::Released),
        make_line(
            Some(LedgerOp::Lock),
            LedgerOp::Burn,
            Entry::Locked,
            Entry::Burnt,
        ),
        make_line(
            Some(LedgerOp::Lock),
            LedgerOp::Release,
            Entry::Locked,
            Entry::Released,
        ),
        make_line(
            Some(LedgerOp::Mint),
            LedgerOp::Assign,
            Entry::Minted,
            Entry::Assigned,
        ),
        make_line(
            Some(LedgerOp::Mint),
            LedgerOp::Release,
            Entry::Minted,
            Entry::Released,
        ),
    ] {
        for pick in PICKS {
            for events in 0..5 {
                assert!(rt;
                    is_left(rt.alloc(), line, events, pick),
                    "after {events} with {pick}"
                );
            }
        }
    }
}
