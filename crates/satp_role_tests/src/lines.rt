//! The tables of both sides once more, line by line.

use satp_base::{Cause, Kind, LedgerOp, Next, Rec, View, Way};

/// The first line of a table that fits; to wait where none does.
fn first_of(lines: &[(bool, Next)]) -> Next {
    for (fits, next) in lines {
        if *fits {
            return *next;
        }
    }
    Next::Wait
}

pub fn line_of_origin(view: &View) -> Next {
    let last = view.tale.last();
    let taken = view.tale.length() % 2 == 0;
    let back = matches!(view.way, Some(Way::Back(_)));
    let commit = view.way == Some(Way::Commit);
    let open = view.way.is_none();
    let done = view.done;
    let ready = last == Some(Kind::CommitReady);
    let lines = [
        (
            matches!(last, Some(Kind::TransferComplete | Kind::RollbackAck)),
            Next::Ended,
        ),
        (back && !done.release, Next::Act(LedgerOp::Release)),
        (back && taken, Next::Append(Rec::Made(Kind::Rollback))),
        (commit && ready && !done.burn, Next::Act(LedgerOp::Burn)),
        (commit && ready, Next::Append(Rec::Made(Kind::CommitFinal))),
        (
            last == Some(Kind::CommitFinalAck),
            Next::Append(Rec::Made(Kind::TransferComplete)),
        ),
        (
            open && last == Some(Kind::Reject),
            Next::Append(Rec::Chose(Way::Back(Cause::Rejected))),
        ),
        (open && ready, Next::Append(Rec::Chose(Way::Commit))),
        (
            open && taken && view.rescue,
            Next::Append(Rec::Chose(Way::Back(Cause::Rescued))),
        ),
        (
            last == Some(Kind::ProposalReceipt),
            Next::Append(Rec::Made(Kind::TransferCommence)),
        ),
        (
            last == Some(Kind::CommenceAck) && !done.lock,
            Next::Act(LedgerOp::Lock),
        ),
        (
            last == Some(Kind::CommenceAck),
            Next::Append(Rec::Made(Kind::LockAssert)),
        ),
        (
            last == Some(Kind::LockReceipt),
            Next::Append(Rec::Made(Kind::CommitPrepare)),
        ),
    ];
    first_of(&lines)
}

pub fn line_of_recipient(view: &View) -> Next {
    let last = view.tale.last();
    let back = matches!(view.way, Some(Way::Back(_)));
    let open = matches!(view.way, None | Some(Way::Back(Cause::Aborted)));
    let due = view.tale.has(Kind::CommitPrepare) && !view.done.release && open;
    let done = view.done;
    let lines = [
        (
            matches!(last, Some(Kind::TransferComplete | Kind::RollbackAck)),
            Next::Ended,
        ),
        (
            last == Some(Kind::Rollback) && due,
            Next::Act(LedgerOp::Release),
        ),
        (
            last == Some(Kind::Rollback),
            Next::Append(Rec::Made(Kind::RollbackAck)),
        ),
        (back && due, Next::Act(LedgerOp::Release)),
        (
            back && view.tale.length() % 2 == 1,
            Next::Append(Rec::Made(Kind::Reject)),
        ),
        (
            last == Some(Kind::TransferProposal),
            Next::Append(Rec::Made(Kind::ProposalReceipt)),
        ),
        (
            last == Some(Kind::TransferCommence),
            Next::Append(Rec::Made(Kind::CommenceAck)),
        ),
        (
            last == Some(Kind::LockAssert),
            Next::Append(Rec::Made(Kind::LockReceipt)),
        ),
        (
            last == Some(Kind::CommitPrepare) && !done.mint,
            Next::Act(LedgerOp::Mint),
        ),
        (
            last == Some(Kind::CommitPrepare),
            Next::Append(Rec::Made(Kind::CommitReady)),
        ),
        (
            last == Some(Kind::CommitFinal) && !done.assign,
            Next::Act(LedgerOp::Assign),
        ),
        (
            last == Some(Kind::CommitFinal),
            Next::Append(Rec::Made(Kind::CommitFinalAck)),
        ),
    ];
    first_of(&lines)
}
