//! The bytes that stand for roles, kinds, operations, decisions and kinds of ledger.

ghost use Rattle.std.specs.Prelude.{◌≡◌, ◌≤◌};
ghost use Rattle.satp_records.specs.Formats.{role_byte, kind_byte, operation_byte, way_byte, ledger_byte};

use satp_base::{Cause, Kind, LedgerKind, LedgerOp, Role, Way};

pub(crate) fn role_byte(role: Role) -> u8
    ensures { result ≡ role_byte role }
{
    match role {
        Role::Origin => 0,
        Role::Recipient => 1,
    }
}

pub(crate) fn role_of(byte: u8) -> Role
    requires { byte ≤ 1 }
    ensures { role_byte result ≡ byte }
{
    match byte {
        0 => Role::Origin,
        _ => Role::Recipient,
    }
}

/// The place of a kind in the chain, and numbers behind the last place for those that end a rollback. Kinds of
/// recovery stand in no chain, and have none.
pub(crate) fn kind_byte(kind: Kind) -> u8
    ensures { result ≡ kind_byte kind }
{
    match kind {
        Kind::TransferProposal => 1,
        Kind::ProposalReceipt => 2,
        Kind::TransferCommence => 3,
        Kind::CommenceAck => 4,
        Kind::LockAssert => 5,
        Kind::LockReceipt => 6,
        Kind::CommitPrepare => 7,
        Kind::CommitReady => 8,
        Kind::CommitFinal => 9,
        Kind::CommitFinalAck => 10,
        Kind::TransferComplete => 11,
        Kind::Reject => 12,
        Kind::Rollback => 13,
        Kind::RollbackAck => 14,
        Kind::Recover | Kind::RecoverUpdate | Kind::RecoverSuccess => 0,
    }
}

/// A kind that may follow a proposal.
pub(crate) fn kind_of(byte: u8) -> Kind
    requires low { 2 ≤ byte }
    requires high { byte ≤ 14 }
    ensures { kind_byte result ≡ byte }
{
    match byte {
        2 => Kind::ProposalReceipt,
        3 => Kind::TransferCommence,
        4 => Kind::CommenceAck,
        5 => Kind::LockAssert,
        6 => Kind::LockReceipt,
        7 => Kind::CommitPrepare,
        8 => Kind::CommitReady,
        9 => Kind::CommitFinal,
        10 => Kind::CommitFinalAck,
        11 => Kind::TransferComplete,
        12 => Kind::Reject,
        13 => Kind::Rollback,
        _ => Kind::RollbackAck,
    }
}

pub(crate) fn operation_byte(op: LedgerOp) -> u8
    ensures { result ≡ operation_byte op }
{
    match op {
        LedgerOp::Lock => 1,
        LedgerOp::Burn => 2,
        LedgerOp::Mint => 3,
        LedgerOp::Assign => 4,
        LedgerOp::Release => 5,
    }
}

pub(crate) fn operation_of(byte: u8) -> LedgerOp
    requires low { 1 ≤ byte }
    requires high { byte ≤ 5 }
    ensures { operation_byte result ≡ byte }
{
    match byte {
        1 => LedgerOp::Lock,
        2 => LedgerOp::Burn,
        3 => LedgerOp::Mint,
        4 => LedgerOp::Assign,
        _ => LedgerOp::Release,
    }
}

pub(crate) fn way_byte(way: Way) -> u8
    ensures { result ≡ way_byte way }
{
    match way {
        Way::Commit => 1,
        Way::Back(Cause::Aborted) => 2,
        Way::Back(Cause::LockRefused) => 3,
        Way::Back(Cause::Rejected) => 4,
        Way::Back(Cause::Rescued) => 5,
        Way::Back(Cause::UnknownAsset) => 6,
        Way::Back(Cause::MintCapped) => 7,
        Way::Back(Cause::LedgerTaken) => 8,
    }
}

pub(crate) fn way_of(byte: u8) -> Way
    requires low { 1 ≤ byte }
    requires high { byte ≤ 8 }
    ensures { way_byte result ≡ byte }
{
    match byte {
        1 => Way::Commit,
        2 => Way::Back(Cause::Aborted),
        3 => Way::Back(Cause::LockRefused),
        4 => Way::Back(Cause::Rejected),
        5 => Way::Back(Cause::Rescued),
        6 => Way::Back(Cause::UnknownAsset),
        7 => Way::Back(Cause::MintCapped),
        _ => Way::Back(Cause::LedgerTaken),
    }
}

pub(crate) fn ledger_byte(kind: LedgerKind) -> u8
    ensures { result ≡ ledger_byte kind }
{
    match kind {
        LedgerKind::Accounts => 1,
        LedgerKind::Outputs => 2,
    }
}

pub(crate) fn ledger_of(byte: u8) -> LedgerKind
    requires low { 1 ≤ byte }
    requires high { byte ≤ 2 }
    ensures { ledger_byte result ≡ byte }
{
    match byte {
        1 => LedgerKind::Accounts,
        _ => LedgerKind::Outputs,
    }
}
