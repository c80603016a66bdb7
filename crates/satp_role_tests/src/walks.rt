ghost use Rattle.std.specs.Prelude.{◌↔◌, IsTrue};
ghost use Rattle.satp_base.specs.Roles.{RoleRule};
ghost use Rattle.satp_base.specs.Views.{KeepsTale};

use crate::lines::{line_of_origin, line_of_recipient};
use satp_base::{Amount, Cause, Kind, LedgerOp, Name, Next, Rec, Role, Terms, View, Way};
use std::alloc::Global;

const KINDS: [Kind; 17] = [
    Kind::TransferProposal,
    Kind::ProposalReceipt,
    Kind::TransferCommence,
    Kind::CommenceAck,
    Kind::LockAssert,
    Kind::LockReceipt,
    Kind::CommitPrepare,
    Kind::CommitReady,
    Kind::CommitFinal,
    Kind::CommitFinalAck,
    Kind::TransferComplete,
    Kind::Reject,
    Kind::Rollback,
    Kind::RollbackAck,
    Kind::Recover,
    Kind::RecoverUpdate,
    Kind::RecoverSuccess,
];

const OTHERS: [Rec; 14] = [
    Rec::Did(LedgerOp::Lock),
    Rec::Did(LedgerOp::Burn),
    Rec::Did(LedgerOp::Mint),
    Rec::Did(LedgerOp::Assign),
    Rec::Did(LedgerOp::Release),
    Rec::Chose(Way::Commit),
    Rec::Chose(Way::Back(Cause::Aborted)),
    Rec::Chose(Way::Back(Cause::LockRefused)),
    Rec::Chose(Way::Back(Cause::Rejected)),
    Rec::Chose(Way::Back(Cause::Rescued)),
    Rec::Chose(Way::Back(Cause::UnknownAsset)),
    Rec::Chose(Way::Back(Cause::MintCapped)),
    Rec::Chose(Way::Back(Cause::LedgerTaken)),
    Rec::Rescue,
];

/// Whether the rule of the view's role lets the record come.
fn allows(view: &View, rec: Rec) -> bool
    ensures { IsTrue result ↔ RoleRule view.now.role view.now rec }
{
    match view.role {
        Role::Origin => satp_origin::allows(view, &rec),
        Role::Recipient => satp_recipient::allows(view, &rec),
    }
}

/// Whether the message of a record, where it has one, may come after the tale.
fn extends(view: &View, rec: Rec) -> bool
    ensures { IsTrue result → KeepsTale view.now.tale rec }
{
    match rec {
        Rec::Took(kind) => view.tale.extends(kind),
        Rec::Made(kind) => view.tale.extends(kind),
        _ => true,
    }
}

/// The view with a record more, where the record may come.
pub fn grown(view: &View, rec: Rec) -> Option<View> {
    if !allows(view, rec) {
        return None;
    }
    if !extends(view, rec) {
        return None;
    }
    let mut grown = *view;
    grown.push(rec);
    Some(grown)
}

/// The view after these records.
pub fn walked(from: View, records: &[Rec]) -> Option<View> {
    let mut view = from;
    for rec in records {
        view = grown(&view, *rec)?;
    }
    Some(view)
}

/// What a side's records say once its session has begun.
pub fn begun(role: Role) -> Option<View> {
    let terms = Terms {
        amount: Amount::from(250)?,
        asset: Name::read(b"gold").ok()?,
        beneficiary: Name::read(b"bob").ok()?,
        originator: Name::read(b"ann").ok()?,
    };
    Some(View::begin(role, terms))
}

/// Adds the view that one record more leads to, if any; no message of a record that may come is refused by the tale.
fn add_grown(views: &mut Vec<View>, view: &View, rec: Rec) -> bool {
    match grown(view, rec) {
        Some(grown) => views.push(grown).is_ok(),
        None => !allows(view, rec),
    }
}

/// Adds the views that one record more leads to.
fn add_each_grown(views: &mut Vec<View>, view: &View) -> bool {
    for kind in KINDS {
        if !add_grown(views, view, Rec::Took(kind)) || !add_grown(views, view, Rec::Made(kind)) {
            return false;
        }
    }
    for rec in OTHERS {
        if !add_grown(views, view, rec) {
            return false;
        }
    }
    true
}

/// Adds each view that records lead to from the first, once for each list of records that does.
fn add_all(views: &mut Vec<View>, first: View) -> bool {
    if views.push(first).is_err() {
        return false;
    }
    for index in 0..10_000 {
        let Some(view) = views.get(index).copied() else {
            return true;
        };
        if !add_each_grown(views, &view) {
            return false;
        }
    }
    false
}

/// The tables of both sides give the lines of these views, and at least one session comes to its end.
fn have_their_lines(views: &[View]) -> bool {
    let mut ended = false;
    for view in views {
        if next_of(view) != line_of(view) {
            return false;
        }
        ended = ended || view.tale.whole();
    }
    ended
}

fn next_of(view: &View) -> Next {
    match view.role {
        Role::Origin => satp_origin::next(view),
        Role::Recipient => satp_recipient::next(view),
    }
}

fn line_of(view: &View) -> Next {
    match view.role {
        Role::Origin => line_of_origin(view),
        Role::Recipient => line_of_recipient(view),
    }
}

fn all_have_their_lines(alloc: Global, role: Role) -> Option<bool> {
    let first = begun(role)?;
    let mut views = Vec::new(alloc);
    Some(add_all(&mut views, first) && have_their_lines(&views))
}

#[test]
fn each_view_that_records_lead_to_has_its_line(rt: HostRuntime) {
    assert!(rt; all_have_their_lines(rt.alloc(), Role::Origin) == Some(true));
    assert!(rt; all_have_their_lines(rt.alloc(), Role::Recipient) == Some(true));
}
