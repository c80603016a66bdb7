use crate::set_ups::{
    CUT_AT_SIX, CUT_RECORD, End, Ended, Held, Trouble, Way, count_calls, set_up_twice,
};
use satp_base::{LedgerKind, Memory};
use std::alloc::Global;
use std::test::Fail;

const CASES: [(LedgerKind, Trouble, Ended); 4] = [
    // A gateway is set up once.
    (
        LedgerKind::Accounts,
        Trouble::Nothing,
        Ended {
            first: End::Ready,
            held: Held::SetUp,
            free: Some(1000),
            second: End::There,
        },
    ),
    // The site keeps accounts, and founds no ledger of another kind.
    (
        LedgerKind::Outputs,
        Trouble::Nothing,
        Ended {
            first: End::SiteFailed,
            held: Held::ClosedGate,
            free: None,
            second: End::Ready,
        },
    ),
    // Damage is left as it is.
    (
        LedgerKind::Accounts,
        Trouble::Journal(CUT_RECORD),
        Ended {
            first: End::DamagedAt(0),
            held: Held::CutRecord,
            free: None,
            second: End::DamagedAt(0),
        },
    ),
    (
        LedgerKind::Accounts,
        Trouble::Journal(CUT_AT_SIX),
        Ended {
            first: End::DamagedAt(6),
            held: Held::CutAtSix,
            free: None,
            second: End::DamagedAt(6),
        },
    ),
];

#[test]
fn set_ups_end_as_the_table_says(rt: HostRuntime) -> Result<(), Fail> {
    for way in [Way::Run, Way::SetUp] {
        for (kind, trouble, ended) in CASES {
            assert_eq!(rt;
                set_up_twice(rt.alloc(), way, kind, trouble)?,
                ended,
                "{way:?}"
            );
        }
    }
    Ok(())
}

/// The ends of a set-up with trouble and of one after it.
fn ends(alloc: Global, way: Way, trouble: Trouble) -> Result<[End; 2], Memory> {
    let ended = set_up_twice(alloc, way, LedgerKind::Accounts, trouble)?;
    Ok([ended.first, ended.second])
}

/// The first call whose failure isn't told, or after which another set-up ends in another way than it has to.
///
/// Once the last gate is written, the record stands.
fn first_wrong_failure(alloc: Global, way: Way, calls: u64) -> Result<Option<u64>, Memory> {
    for call in 1..=calls {
        let again = if calls - call < 2 {
            End::There
        } else {
            End::Ready
        };
        if ends(alloc, way, Trouble::Failure(call))? != [End::SiteFailed, again] {
            return Ok(Some(call));
        }
    }
    Ok(None)
}

#[test]
fn each_call_may_fail(rt: HostRuntime) -> Result<(), Fail> {
    for (way, least) in [(Way::Run, 9), (Way::SetUp, 8)] {
        let calls = count_calls(rt.alloc(), way)?;
        let wrong = first_wrong_failure(rt.alloc(), way, calls)?;
        assert_eq!(rt; (calls >= least, wrong), (true, None), "{way:?}");
    }
    Ok(())
}

/// The first event and the pick of a stop that isn't told, or after which a set-up finds neither nothing nor a gateway.
fn first_wrong_stop(alloc: Global, way: Way, events: u64) -> Result<Option<(u64, u32)>, Memory> {
    for event in 0..events {
        for pick in [0, 1, 7] {
            let again = if event + 1 == events && pick == 1 {
                End::There
            } else {
                End::Ready
            };
            if ends(alloc, way, Trouble::Stop(event, pick))? != [End::SiteFailed, again] {
                return Ok(Some((event, pick)));
            }
        }
    }
    Ok(None)
}

// The events of a set-up are: sync, a closed gate, sync, the founding, the record, sync, the open gate, sync.
#[test]
fn a_stop_leaves_no_gateway_or_a_whole_one(rt: HostRuntime) -> Result<(), Fail> {
    for way in [Way::Run, Way::SetUp] {
        let wrong = first_wrong_stop(rt.alloc(), way, 8)?;
        assert_eq!(rt; wrong, None, "{way:?}");
    }
    Ok(())
}
