//! The words that name members, kinds and reasons.

ghost use Rattle.std.specs.Prelude.{◌≡◌, find};
ghost use Rattle.std.specs.Str.{bytes_eq};
ghost use Rattle.satp_base.specs.Canonical.{kind_named, kind_text, member_named, member_text, reason_named, reason_text};

use satp_base::{Kind, MemberName, Reason};

static MEMBERS: [MemberName; 16] = [
    MemberName::Amount,
    MemberName::Asset,
    MemberName::Beneficiary,
    MemberName::Entries,
    MemberName::Kind,
    MemberName::Last,
    MemberName::Length,
    MemberName::Originator,
    MemberName::Previous,
    MemberName::Reason,
    MemberName::Receiver,
    MemberName::Sender,
    MemberName::Sequence,
    MemberName::Session,
    MemberName::Terms,
    MemberName::Version,
];

static KINDS: [Kind; 17] = [
    Kind::TransferProposal,
    Kind::ProposalReceipt,
    Kind::TransferCommence,
    Kind::CommenceAck,
    Kind::LockAssert,
    Kind::LockReceipt,
    Kind::CommitPrepare,
    Kind::CommitReady,
    Kind::CommitFinal,
    Kind::CommitFinalAck,
    Kind::TransferComplete,
    Kind::Reject,
    Kind::Rollback,
    Kind::RollbackAck,
    Kind::Recover,
    Kind::RecoverUpdate,
    Kind::RecoverSuccess,
];

static REASONS: [Reason; 4] = [
    Reason::UnknownAsset,
    Reason::MintCapped,
    Reason::Aborted,
    Reason::LedgerTaken,
];

/// The member that a text names; `Unknown` where there is none.
pub fn member_named(text: &[u8]) -> MemberName
    ensures { result ≡ member_named text.now }
{
    member_among(&MEMBERS, text).unwrap_or(MemberName::Unknown)
}

/// The kind that a text names.
pub fn kind_named(text: &[u8]) -> Option<Kind>
    ensures { result ≡ kind_named text.now }
{
    kind_among(&KINDS, text)
}

/// The reason that a text names.
pub fn reason_named(text: &[u8]) -> Option<Reason>
    ensures { result ≡ reason_named text.now }
{
    reason_among(&REASONS, text)
}

fn member_among(names: &[MemberName], text: &[u8]) -> Option<MemberName>
    ensures { result ≡ find (λ name. bytes_eq (member_text name) text.now) names.now }
{
    for name in names {
        if member_is(*name, text) {
            return Some(*name);
        }
    }
    None
}

fn kind_among(kinds: &[Kind], text: &[u8]) -> Option<Kind>
    ensures { result ≡ find (λ kind. bytes_eq (kind_text kind) text.now) kinds.now }
{
    for kind in kinds {
        if kind_is(*kind, text) {
            return Some(*kind);
        }
    }
    None
}

fn reason_among(reasons: &[Reason], text: &[u8]) -> Option<Reason>
    ensures { result ≡ find (λ reason. bytes_eq (reason_text reason) text.now) reasons.now }
{
    for reason in reasons {
        if reason_is(*reason, text) {
            return Some(*reason);
        }
    }
    None
}

pub fn member_is(name: MemberName, text: &[u8]) -> bool
    ensures { result ≡ bytes_eq (member_text name) text.now }
{
    name.text().as_bytes() == text
}

fn kind_is(kind: Kind, text: &[u8]) -> bool
    ensures { result ≡ bytes_eq (kind_text kind) text.now }
{
    kind.text().as_bytes() == text
}

fn reason_is(reason: Reason, text: &[u8]) -> bool
    ensures { result ≡ bytes_eq (reason_text reason) text.now }
{
    reason.text().as_bytes() == text
}
