use crate::walks::{begun, grown, walked};
use satp_base::{Answer, Cause, Kind, LedgerOp, Next, Rec, Role, TooLate, Way};

const AGREED: [Rec; 3] = [
    Rec::Took(Kind::ProposalReceipt),
    Rec::Made(Kind::TransferCommence),
    Rec::Took(Kind::CommenceAck),
];

const READY: [Rec; 5] = [
    Rec::Did(LedgerOp::Lock),
    Rec::Made(Kind::LockAssert),
    Rec::Took(Kind::LockReceipt),
    Rec::Made(Kind::CommitPrepare),
    Rec::Took(Kind::CommitReady),
];

const PREPARED: [Rec; 6] = [
    Rec::Made(Kind::ProposalReceipt),
    Rec::Took(Kind::TransferCommence),
    Rec::Made(Kind::CommenceAck),
    Rec::Took(Kind::LockAssert),
    Rec::Made(Kind::LockReceipt),
    Rec::Took(Kind::CommitPrepare),
];

const MINTED: [Rec; 2] = [Rec::Did(LedgerOp::Mint), Rec::Made(Kind::CommitReady)];

const ABORTED: Rec = Rec::Chose(Way::Back(Cause::Aborted));

/// The record after a lock of the origin is refused, where one is due.
fn after_a_refused_lock() -> Option<Rec> {
    let view = walked(begun(Role::Origin)?, &AGREED)?;
    match satp_origin::next(&view) {
        Next::Act(LedgerOp::Lock) => Some(satp_origin::after(
            &view,
            LedgerOp::Lock,
            &Answer::NoFunds { free: 1000 },
        )),
        _ => None,
    }
}

/// The record after a mint of the recipient is refused, where one is due.
fn after_a_capped_mint() -> Option<Rec> {
    let view = walked(begun(Role::Recipient)?, &PREPARED)?;
    match satp_recipient::next(&view) {
        Next::Act(LedgerOp::Mint) => Some(satp_recipient::after(
            &view,
            LedgerOp::Mint,
            &Answer::Capped { total: 350 },
        )),
        _ => None,
    }
}

#[test]
fn a_refused_operation_turns_back(rt: HostRuntime) {
    let lock = Rec::Chose(Way::Back(Cause::LockRefused));
    assert!(rt; after_a_refused_lock() == Some(lock));
    let mint = Rec::Chose(Way::Back(Cause::MintCapped));
    assert!(rt; after_a_capped_mint() == Some(mint));
}

type Aborted = Result<Option<Rec>, TooLate>;

/// What an abort of the origin answers: once the terms are agreed on, after that abort, and after the commitment.
fn aborts_of_the_origin() -> Option<[Aborted; 3]> {
    let agreed = walked(begun(Role::Origin)?, &AGREED)?;
    let turned = grown(&agreed, ABORTED)?;
    let committed = grown(&walked(agreed, &READY)?, Rec::Chose(Way::Commit))?;
    Some([
        satp_origin::abort(&agreed),
        satp_origin::abort(&turned),
        satp_origin::abort(&committed),
    ])
}

/// What an abort of the recipient answers: once the commitment is prepared, once it is ready, and after the rollback.
fn aborts_of_the_recipient() -> Option<[Aborted; 3]> {
    let prepared = walked(begun(Role::Recipient)?, &PREPARED)?;
    let ready = walked(prepared, &MINTED)?;
    let back = grown(&ready, Rec::Took(Kind::Rollback))?;
    Some([
        satp_recipient::abort(&prepared),
        satp_recipient::abort(&ready),
        satp_recipient::abort(&back),
    ])
}

#[test]
fn an_abort_is_recorded_or_too_late(rt: HostRuntime) {
    let recorded = Ok(Some(ABORTED));
    let of_the_origin = [recorded, Ok(None), Err(TooLate { place: 9 })];
    assert!(rt; aborts_of_the_origin() == Some(of_the_origin));
    let of_the_recipient = [recorded, Err(TooLate { place: 8 }), Ok(None)];
    assert!(rt; aborts_of_the_recipient() == Some(of_the_recipient));
}
