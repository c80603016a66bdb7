use crate::ledger::LedgerOp;
use crate::message::{Kind, Role, Terms};

/// Why a side chose to roll a session back.
#[derive(Clone, Copy, Debug, PartialEq, Eq)]
pub enum Cause {
    /// An operator asked for it.
    Aborted,
    /// The origin's ledger refused the lock.
    LockRefused,
    /// The recipient rejected.
    Rejected,
    /// A recovery round came before the recipient was ready.
    Rescued,
    /// The recipient's ledger has no such asset.
    UnknownAsset,
    /// The mint would have passed the asset's cap.
    MintCapped,
    /// The recipient's ledger has another entry of the session.
    LedgerTaken,
}

/// How a session is to end.
#[derive(Clone, Copy, Debug, PartialEq, Eq)]
pub enum Way {
    /// The amount is burnt on one ledger and assigned on the other.
    Commit,
    /// Nothing is moved: what was locked or minted is released.
    Back(Cause),
}

/// A record of a session, without the text of its message.
#[derive(Clone, Copy, Debug, PartialEq, Eq)]
pub enum Rec {
    /// The session began, with this side in that role: place 1 of the chain.
    Began(Role, Terms),
    /// A chain message of the peer.
    Took(Kind),
    /// A chain message of this side.
    Made(Kind),
    /// The ledger answered that the operation is done.
    Did(LedgerOp),
    /// A decision, made at most once.
    Chose(Way),
    /// This origin is in a recovery round.
    Rescue,
}

/// What a side does next in a session.
#[derive(Clone, Copy, Debug, PartialEq, Eq)]
pub enum Next {
    /// It stores this record.
    Append(Rec),
    /// It asks its ledger for this operation.
    Act(LedgerOp),
    /// The peer is next.
    Wait,
    /// The session is over.
    Ended,
}

/// The session has come too far to be aborted: the message at this place decides it.
#[derive(Clone, Copy, Debug, PartialEq, Eq)]
pub struct TooLate {
    /// The place in the chain, from 1 to 11.
    pub place: u8,
}
