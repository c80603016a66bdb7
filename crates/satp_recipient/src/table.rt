ghost use Rattle.std.specs.Prelude.{◌≡◌, drop};
ghost use Rattle.satp_base.specs.Roles.{first_line, is_aborted, is_back, next_of, no_way, recipient_table, release_due};

use satp_base::{Cause, Kind, LedgerOp, Next, Rec, Role, View, Way};

/// Whether this recipient has chosen to turn back.
pub fn turned_back(way: Option<Way>) -> bool
    ensures { result ≡ is_back way }
{
    matches!(way, Some(Way::Back(_)))
}

/// Whether what was minted, or may have been, is still to be released.
fn release_due(view: &View) -> bool
    ensures { result ≡ release_due view.now }
{
    let open = matches!(view.way, None | Some(Way::Back(Cause::Aborted)));
    view.tale.has(Kind::CommitPrepare) && !view.done.release && open
}

/// The answer to the origin's last message, where nothing turns back.
fn answer(view: &View) -> Next
    ensures { result ≡ first_line (drop 5 (recipient_table view.now)) }
{
    match view.tale.last() {
        Some(Kind::TransferProposal) => Next::Append(Rec::Made(Kind::ProposalReceipt)),
        Some(Kind::TransferCommence) => Next::Append(Rec::Made(Kind::CommenceAck)),
        Some(Kind::LockAssert) => Next::Append(Rec::Made(Kind::LockReceipt)),
        Some(Kind::CommitPrepare) => {
            if view.done.mint {
                Next::Append(Rec::Made(Kind::CommitReady))
            } else {
                Next::Act(LedgerOp::Mint)
            }
        }
        Some(Kind::CommitFinal) => {
            if view.done.assign {
                Next::Append(Rec::Made(Kind::CommitFinalAck))
            } else {
                Next::Act(LedgerOp::Assign)
            }
        }
        _ => Next::Wait,
    }
}

/// What the recipient does next.
pub fn next(view: &View) -> Next
    ensures { result ≡ next_of Role.Recipient view.now }
{
    let last = view.tale.last();
    if view.tale.whole() {
        return Next::Ended;
    }
    let due = release_due(view);
    if last == Some(Kind::Rollback) {
        return if due {
            Next::Act(LedgerOp::Release)
        } else {
            Next::Append(Rec::Made(Kind::RollbackAck))
        };
    }
    if turned_back(view.way) {
        if due {
            return Next::Act(LedgerOp::Release);
        }
        if last.is_some_and(|kind| kind.is_by(Role::Origin)) {
            return Next::Append(Rec::Made(Kind::Reject));
        }
    }
    answer(view)
}
