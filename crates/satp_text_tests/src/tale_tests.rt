use satp_base::{Kind, Tale};

/// Whether each of the first kinds may come, and none of the others, after the kinds that came.
fn goes_on(tale: &mut Tale, kind: Kind, other: Kind) -> bool {
    if !tale.extends(kind) || tale.extends(other) {
        return false;
    }
    tale.push(kind);
    true
}

/// Whether the kinds of a rejected transfer come, one by one, and each other kind is refused.
fn is_rolled_back(tale: &mut Tale) -> bool {
    goes_on(tale, Kind::TransferProposal, Kind::Reject)
        && goes_on(tale, Kind::Reject, Kind::Rollback)
        && goes_on(tale, Kind::Rollback, Kind::ProposalReceipt)
        && !tale.whole()
        && goes_on(tale, Kind::RollbackAck, Kind::Rollback)
}

#[test]
fn a_tale_goes_on_by_one_kind_at_a_time(rt: HostRuntime) {
    let mut tale = Tale::new();
    let is_rolled_back = is_rolled_back(&mut tale);
    let kinds = [tale.kind(0), tale.kind(2), tale.kind(5), tale.last()];
    let wanted = [None, Some(Kind::Reject), None, Some(Kind::RollbackAck)];
    let has = (tale.has(Kind::Rollback), tale.has(Kind::CommitReady));
    assert!(rt;
        is_rolled_back
            && tale.whole()
            && tale.length() == 4
            && kinds == wanted
            && has == (true, false)
    );
}
