ghost use Rattle.std.specs.Prelude.{◌≡◌, ℕ, ◌≤◌, [], ◌∷◌, ◌++◌, length, Option, IsTrue, ◌↔◌};
ghost use Rattle.satp_base.specs.Tales.{IsTale, follows, has, is_whole, kind_at, kind_code, last_of, makes};

use crate::message::{Kind, Role};
use std::marker::Model;

/// The kinds of a chain's messages in their order, at most eleven. They have one of the three forms of a tale: a
/// transfer on its way, one that is rolled back, or one that was rejected and is rolled back.
#[derive(Clone, Copy)]
pub struct Tale {
    kinds: [Kind; 11],
    count: u8,
}

impl Model for Tale {
    ghost use Rattle.std.specs.Prelude.{List, length, replicate, ◌++◌, ◌-◌, take};
    ghost use Rattle.satp_base.specs.declared.message.Kind.{Kind};

    ghost Value = { List Kind };

    ghost use Rattle.satp_base.specs.TaleForm.{HoldsTale, kinds_of, padded, same_fields};

    ghost view = { kinds_of };

    ghost invariant = { HoldsTale };

    ghost inverse = { padded };

    ghost inverse_ok = { same_fields };
}

/// Whether a message of this kind may come behind one of the kind `last`.
fn follows(last: Kind, kind: Kind) -> bool
    ensures { result ≡ follows last kind }
{
    match last {
        Kind::TransferProposal => matches!(kind, Kind::ProposalReceipt | Kind::Reject),
        Kind::ProposalReceipt => matches!(kind, Kind::TransferCommence | Kind::Rollback),
        Kind::TransferCommence => matches!(kind, Kind::CommenceAck | Kind::Reject),
        Kind::CommenceAck => matches!(kind, Kind::LockAssert | Kind::Rollback),
        Kind::LockAssert => matches!(kind, Kind::LockReceipt | Kind::Reject),
        Kind::LockReceipt => matches!(kind, Kind::CommitPrepare | Kind::Rollback),
        Kind::CommitPrepare => matches!(kind, Kind::CommitReady | Kind::Reject),
        Kind::CommitReady => matches!(kind, Kind::CommitFinal | Kind::Rollback),
        Kind::CommitFinal => matches!(kind, Kind::CommitFinalAck),
        Kind::CommitFinalAck => matches!(kind, Kind::TransferComplete),
        Kind::Reject => matches!(kind, Kind::Rollback),
        Kind::Rollback => matches!(kind, Kind::RollbackAck),
        _ => false,
    }
}

/// The number of a kind.
fn code(kind: Kind) -> u8
    ensures { result ≡ kind_code kind }
{
    kind as u8
}

impl Kind {
    /// Whether the side of this role makes the chain's messages of this kind. Neither makes those of recovery, which
    /// stand in no chain.
    pub fn is_by(self, role: Role) -> bool
        ensures { result ≡ makes role self }
    {
        match self {
            Kind::TransferProposal
            | Kind::TransferCommence
            | Kind::LockAssert
            | Kind::CommitPrepare
            | Kind::CommitFinal
            | Kind::TransferComplete
            | Kind::Rollback => matches!(role, Role::Origin),
            Kind::ProposalReceipt
            | Kind::CommenceAck
            | Kind::LockReceipt
            | Kind::CommitReady
            | Kind::CommitFinalAck
            | Kind::Reject
            | Kind::RollbackAck => matches!(role, Role::Recipient),
            Kind::Recover | Kind::RecoverUpdate | Kind::RecoverSuccess => false,
        }
    }
}

impl Tale {
    /// The tale of no message.
    pub fn new() -> Tale
        ensures { result ≡ [] }
    {
        Tale {
            kinds: [Kind::TransferProposal; 11],
            count: 0,
        }
    }

    /// Adds a kind behind the last one.
    pub fn push(&mut self, kind: Kind)
        requires { IsTale (self.old ++ kind ∷ []) }
        ensures { self.new ≡ self.old ++ kind ∷ [] }
    {
        self.kinds[self.count as usize] = kind;
        self.count += 1;
    }

    /// How many kinds there are.
    pub fn length(&self) -> u8
        ensures length { result ≡ length self.now }
        ensures tale { IsTale self.now }
    {
        self.count
    }

    /// The kind at a place, from 1; none where no kind stands there.
    pub fn kind(&self, place: u8) -> Option<Kind>
        ensures kind { result ≡ kind_at self.now place }
        ensures tale { IsTale self.now }
    {
        if place == 0 || place > self.count {
            return None;
        }
        Some(self.kinds[place as usize - 1])
    }

    /// The last kind.
    pub fn last(&self) -> Option<Kind>
        ensures last { result ≡ last_of self.now }
        ensures tale { IsTale self.now }
    {
        if self.count == 0 {
            return None;
        }
        Some(self.kinds[self.count as usize - 1])
    }

    /// Whether the kind stands in the tale.
    pub fn has(&self, kind: Kind) -> bool
        ensures { result ≡ has kind self.now }
    {
        for held in &self.kinds[..self.count as usize] {
            if code(kind) == code(*held) {
                return true;
            }
        }
        false
    }

    /// Whether the kinds with this one behind them are a tale too.
    pub fn extends(&self, kind: Kind) -> bool
        ensures { IsTrue result ↔ IsTale (self.now ++ kind ∷ []) }
    {
        match self.last() {
            None => matches!(kind, Kind::TransferProposal),
            Some(last) => follows(last, kind),
        }
    }

    /// Whether the session is over: committed or rolled back.
    pub fn whole(&self) -> bool
        ensures { result ≡ is_whole self.now }
    {
        match self.last() {
            Some(last) => matches!(last, Kind::TransferComplete | Kind::RollbackAck),
            None => false,
        }
    }
}
