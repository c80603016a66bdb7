//! The members of each kind of message.

ghost use Rattle.std.specs.Prelude.{◌≡◌};
ghost use Rattle.satp_base.specs.Canonical.{row};

use satp_base::{Kind, MemberName};

static PROPOSAL: [MemberName; 8] = [
    MemberName::Kind,
    MemberName::Previous,
    MemberName::Receiver,
    MemberName::Sender,
    MemberName::Sequence,
    MemberName::Session,
    MemberName::Terms,
    MemberName::Version,
];

static REJECT: [MemberName; 8] = [
    MemberName::Kind,
    MemberName::Previous,
    MemberName::Reason,
    MemberName::Receiver,
    MemberName::Sender,
    MemberName::Sequence,
    MemberName::Session,
    MemberName::Version,
];

static PLAIN: [MemberName; 7] = [
    MemberName::Kind,
    MemberName::Previous,
    MemberName::Receiver,
    MemberName::Sender,
    MemberName::Sequence,
    MemberName::Session,
    MemberName::Version,
];

static RECOVER: [MemberName; 7] = [
    MemberName::Kind,
    MemberName::Last,
    MemberName::Length,
    MemberName::Receiver,
    MemberName::Sender,
    MemberName::Session,
    MemberName::Version,
];

static UPDATE: [MemberName; 7] = [
    MemberName::Entries,
    MemberName::Kind,
    MemberName::Length,
    MemberName::Receiver,
    MemberName::Sender,
    MemberName::Session,
    MemberName::Version,
];

/// The members of a message of this kind, in byte order.
pub fn row(kind: Kind) -> &'static [MemberName]
    ensures { result.now ≡ row kind }
{
    match kind {
        Kind::TransferProposal => &PROPOSAL,
        Kind::Reject => &REJECT,
        Kind::Recover | Kind::RecoverSuccess => &RECOVER,
        Kind::RecoverUpdate => &UPDATE,
        Kind::ProposalReceipt
        | Kind::TransferCommence
        | Kind::CommenceAck
        | Kind::LockAssert
        | Kind::LockReceipt
        | Kind::CommitPrepare
        | Kind::CommitReady
        | Kind::CommitFinal
        | Kind::CommitFinalAck
        | Kind::TransferComplete
        | Kind::Rollback
        | Kind::RollbackAck => &PLAIN,
    }
}
