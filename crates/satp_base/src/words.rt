//! The words by which messages name kinds and reasons.

use crate::message::{Body, Kind, Part, Reason};

impl Kind {
    ghost use Rattle.std.specs.Prelude.{◌≡◌};
    ghost use Rattle.satp_base.specs.Canonical.{kind_text};

    /// The kind's name, as messages have it.
    pub fn text(self) -> &'static str
        ensures { result.now ≡ kind_text self }
    {
        match self {
            Kind::TransferProposal => "transfer-proposal",
            Kind::ProposalReceipt => "proposal-receipt",
            Kind::TransferCommence => "transfer-commence",
            Kind::CommenceAck => "commence-ack",
            Kind::LockAssert => "lock-assert",
            Kind::LockReceipt => "lock-receipt",
            Kind::CommitPrepare => "commit-prepare",
            Kind::CommitReady => "commit-ready",
            Kind::CommitFinal => "commit-final",
            Kind::CommitFinalAck => "commit-final-ack",
            Kind::TransferComplete => "transfer-complete",
            Kind::Reject => "reject",
            Kind::Rollback => "rollback",
            Kind::RollbackAck => "rollback-ack",
            Kind::Recover => "recover",
            Kind::RecoverUpdate => "recover-update",
            Kind::RecoverSuccess => "recover-success",
        }
    }
}

impl Reason {
    ghost use Rattle.std.specs.Prelude.{◌≡◌};
    ghost use Rattle.satp_base.specs.Canonical.{reason_text};

    /// The reason's name, as a `reject` message has it.
    pub fn text(self) -> &'static str
        ensures { result.now ≡ reason_text self }
    {
        match self {
            Reason::UnknownAsset => "unknown-asset",
            Reason::MintCapped => "mint-capped",
            Reason::Aborted => "aborted",
            Reason::LedgerTaken => "ledger-taken",
        }
    }
}

impl Part {
    ghost use Rattle.std.specs.Prelude.{◌≡◌};
    ghost use Rattle.satp_base.specs.Canonical.{part_kind};

    /// The kind of the chain message that says this.
    pub fn kind(&self) -> Kind
        ensures { result ≡ part_kind self.now }
    {
        match self {
            Part::Proposal(_) => Kind::TransferProposal,
            Part::Plain(kind) => *kind,
            Part::Reject(_) => Kind::Reject,
        }
    }
}

impl Body {
    ghost use Rattle.std.specs.Prelude.{◌≡◌};
    ghost use Rattle.satp_base.specs.Canonical.{kind_of};

    /// The kind of the message.
    pub fn kind(&self) -> Kind
        ensures { result ≡ kind_of self.now }
    {
        match self {
            Body::Chain { part, .. } => part.kind(),
            Body::Recover { .. } => Kind::Recover,
            Body::Update { .. } => Kind::RecoverUpdate,
            Body::Success { .. } => Kind::RecoverSuccess,
        }
    }
}
