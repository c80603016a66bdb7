ghost use Rattle.std.specs.Prelude.{◌≡◌, ◌↔◌, IsTrue, Some, None, Ok, Err};
ghost use Rattle.satp_base.specs.Acts.{MayAnswer};
ghost use Rattle.satp_base.specs.Roles.{After, Other, RoleRule, abort_of, after_of, next_of};

use crate::table::{next, turned_back};
use satp_base::{Answer, Cause, Kind, LedgerOp, Next, Rec, Role, TooLate, View, Way};

/// The record after the ledger's answer to the operation that was due.
pub fn after(view: &View, op: LedgerOp, answer: &Answer) -> Rec
    requires due { next_of Role.Recipient view.now ≡ Next.Act op }
    requires given { MayAnswer op answer.now }
    ensures allowed { After op answer.now result }
    ensures same { result ≡ after_of op answer.now }
{
    match answer {
        Answer::Done => Rec::Did(op),
        Answer::UnknownAsset => Rec::Chose(Way::Back(Cause::UnknownAsset)),
        Answer::Capped { .. } => Rec::Chose(Way::Back(Cause::MintCapped)),
        Answer::NoFunds { .. } | Answer::Taken { .. } => Rec::Chose(Way::Back(Cause::LedgerTaken)),
    }
}

/// The record of a wish to turn back; none where the session is on its way back already.
///
/// `TooLate` of place 8 comes once this recipient has said that it is ready, until the origin has turned back: the
/// origin may have burnt by then.
pub fn abort(view: &View) -> Result<Option<Rec>, TooLate>
    ensures { result ≡ abort_of Role.Recipient view.now }
{
    if view.tale.has(Kind::CommitReady) && !view.tale.has(Kind::Rollback) {
        return Err(TooLate { place: 8 });
    }
    if turned_back(view.way) || view.tale.has(Kind::Rollback) {
        return Ok(None);
    }
    Ok(Some(Rec::Chose(Way::Back(Cause::Aborted))))
}

/// Whether this side's next message is of this kind.
fn makes(view: &View, kind: Kind) -> bool
    ensures { IsTrue result ↔ (next_of Role.Recipient view.now ≡ Next.Append (Rec.Made kind)) }
{
    match next(view) {
        Next::Append(Rec::Made(due)) => due == kind,
        _ => false,
    }
}

/// Whether this operation is due.
fn acts(view: &View, op: LedgerOp) -> bool
    ensures { IsTrue result ↔ (next_of Role.Recipient view.now ≡ Next.Act op) }
{
    match next(view) {
        Next::Act(due) => due == op,
        _ => false,
    }
}

/// Whether the side may turn back because it was asked to.
fn may_abort(view: &View) -> bool
    ensures { IsTrue result ↔ Other Role.Recipient view.now (Rec.Chose (Way.Back Cause.Aborted)) }
{
    view.way.is_none() && !view.tale.has(Kind::CommitReady) && !view.tale.has(Kind::Rollback)
}

/// Whether the side may choose to turn back for this cause.
fn may_turn_back(view: &View, cause: Cause) -> bool
    ensures { IsTrue result ↔ RoleRule Role.Recipient view.now (Rec.Chose (Way.Back cause)) }
{
    match cause {
        Cause::Aborted => may_abort(view),
        Cause::UnknownAsset | Cause::MintCapped | Cause::LedgerTaken => acts(view, LedgerOp::Mint),
        Cause::LockRefused | Cause::Rejected | Cause::Rescued => false,
    }
}

/// Whether the side may choose this way.
fn may_choose(view: &View, way: Way) -> bool
    ensures { IsTrue result ↔ RoleRule Role.Recipient view.now (Rec.Chose way) }
{
    match way {
        Way::Back(cause) => may_turn_back(view, cause),
        Way::Commit => false,
    }
}

/// Whether a record may come next.
pub fn allows(view: &View, rec: &Rec) -> bool
    ensures { IsTrue result ↔ RoleRule Role.Recipient view.now rec.now }
{
    match *rec {
        Rec::Took(kind) => kind.is_by(Role::Origin) && view.tale.extends(kind),
        Rec::Made(kind) => makes(view, kind),
        Rec::Did(op) => acts(view, op),
        Rec::Chose(way) => may_choose(view, way),
        // A session begins once, and only an origin rescues.
        Rec::Began(_, _) => false,
        Rec::Rescue => false,
    }
}
