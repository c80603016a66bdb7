ghost use Rattle.std.specs.Prelude.{◌≡◌, drop, IsTrue};
ghost use Rattle.satp_base.specs.Roles.{both, first_line, is_back, is_commit, next_of, no_way, origin_table};
ghost use Rattle.satp_base.specs.Tales.{last_by};

use satp_base::{Cause, Kind, LedgerOp, Next, Rec, Role, View, Way};

/// Whether this origin has chosen to turn back.
pub fn turned_back(way: Option<Way>) -> bool
    ensures { result ≡ is_back way }
{
    matches!(way, Some(Way::Back(_)))
}

/// Whether this origin has chosen to commit.
pub fn committed(way: Option<Way>) -> bool
    ensures { result ≡ is_commit way }
{
    matches!(way, Some(Way::Commit))
}

/// The answer to the recipient's last message on the way to the commit.
fn go_on(view: &View) -> Next
    ensures { result ≡ first_line (drop 9 (origin_table view.now)) }
{
    match view.tale.last() {
        Some(Kind::ProposalReceipt) => Next::Append(Rec::Made(Kind::TransferCommence)),
        Some(Kind::CommenceAck) => {
            if view.done.lock {
                Next::Append(Rec::Made(Kind::LockAssert))
            } else {
                Next::Act(LedgerOp::Lock)
            }
        }
        Some(Kind::LockReceipt) => Next::Append(Rec::Made(Kind::CommitPrepare)),
        _ => Next::Wait,
    }
}

/// Whether a recovery round asks for a decision: the last message is the recipient's.
fn is_rescued(view: &View) -> bool
    ensures { result ≡ both (last_by Role.Recipient view.now.tale) view.now.rescue }
{
    view.tale
        .last()
        .is_some_and(|kind| kind.is_by(Role::Recipient))
        && view.rescue
}

/// What is next where nothing was decided yet: a decision that the last message asks for, or the answer to it.
fn decide(view: &View) -> Next
    requires { IsTrue (no_way view.now.way) }
    ensures { result ≡ first_line (drop 6 (origin_table view.now)) }
{
    let last = view.tale.last();
    if last == Some(Kind::Reject) {
        return Next::Append(Rec::Chose(Way::Back(Cause::Rejected)));
    }
    if last == Some(Kind::CommitReady) {
        return Next::Append(Rec::Chose(Way::Commit));
    }
    if is_rescued(view) {
        return Next::Append(Rec::Chose(Way::Back(Cause::Rescued)));
    }
    go_on(view)
}

/// What is next where no decision that was made asks for anything.
fn answer(view: &View) -> Next
    ensures { result ≡ first_line (drop 5 (origin_table view.now)) }
{
    if view.tale.last() == Some(Kind::CommitFinalAck) {
        return Next::Append(Rec::Made(Kind::TransferComplete));
    }
    if view.way.is_none() {
        return decide(view);
    }
    go_on(view)
}

/// What the origin does next.
pub fn next(view: &View) -> Next
    ensures { result ≡ next_of Role.Origin view.now }
{
    let last = view.tale.last();
    if view.tale.whole() {
        return Next::Ended;
    }
    if turned_back(view.way) {
        if !view.done.release {
            return Next::Act(LedgerOp::Release);
        }
        if last.is_some_and(|kind| kind.is_by(Role::Recipient)) {
            return Next::Append(Rec::Made(Kind::Rollback));
        }
    }
    if committed(view.way) && last == Some(Kind::CommitReady) {
        return if view.done.burn {
            Next::Append(Rec::Made(Kind::CommitFinal))
        } else {
            Next::Act(LedgerOp::Burn)
        };
    }
    answer(view)
}
