use crate::genesis::Genesis;
use crate::message::Terms;
use crate::session::SessionId;

/// What is done to the entry of a session in a ledger.
#[derive(Clone, Copy, Debug, PartialEq, Eq)]
pub enum LedgerOp {
    /// The originator's amount is set aside.
    Lock,
    /// What was locked is gone for good.
    Burn,
    /// An amount is made that nobody owns yet.
    Mint,
    /// What was minted becomes the beneficiary's.
    Assign,
    /// What was locked goes back, what was minted is gone, and nothing can be locked or minted any more.
    Release,
}

/// How far the entry of a session has come in a ledger.
#[derive(Clone, Copy, Debug, PartialEq, Eq)]
pub enum Entry {
    /// No operation has changed it yet.
    Absent,
    /// The originator's amount is set aside.
    Locked,
    /// The amount is gone from this ledger.
    Burnt,
    /// The amount is made, and nobody owns it yet.
    Minted,
    /// The amount is the beneficiary's.
    Assigned,
    /// Nothing is held for the session, and nothing will be.
    Released,
}

/// What a ledger answers to an operation.
#[derive(Clone, Copy, Debug, PartialEq, Eq)]
pub enum Answer {
    /// The entry is the operation's result.
    Done,
    /// The originator has less than the amount: `free` units.
    NoFunds { free: u64 },
    /// The ledger has no such asset.
    UnknownAsset,
    /// The amount would pass the asset's cap; `total` units are there now.
    Capped { total: u64 },
    /// The session has another entry already.
    Taken { entry: Entry },
}

/// Why a ledger doesn't answer an operation or a look.
#[derive(Clone, Copy, Debug, PartialEq, Eq)]
pub enum ActFault {
    /// The ledger failed.
    Failed,
    /// The operation may not be asked of this entry.
    OutOfOrder { entry: Entry },
}

/// Why a ledger in memory doesn't answer an operation.
#[derive(Clone, Copy, Debug, PartialEq, Eq)]
pub enum CoreFault {
    /// The operation may not be asked of this entry.
    OutOfOrder { entry: Entry },
    /// No memory was found.
    Memory,
}

/// The entry of a session, with the terms that it keeps.
#[derive(Clone, Copy, Debug, PartialEq, Eq)]
pub struct LedgerEntry {
    /// How far it has come.
    pub entry: Entry,
    /// The terms that it was locked, minted or released under.
    pub terms: Terms,
}

/// The kinds of ledger that a gateway may stand before.
#[derive(Clone, Copy, Debug, PartialEq, Eq)]
pub enum LedgerKind {
    /// Free amounts by owner.
    Accounts,
    /// Unspent outputs.
    Outputs,
}

/// A call on the ledger of a site, as the site tells it.
#[derive(Drop)]
pub enum LedgerCall {
    /// The ledger was to be set up anew.
    Found {
        kind: LedgerKind,
        genesis: Genesis,
    },
    /// The ledger was to be opened.
    Raise,
    Act {
        op: LedgerOp,
        session: SessionId,
        terms: Terms,
    },
    Look {
        session: SessionId,
    },
}
