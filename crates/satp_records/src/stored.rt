use satp_base::{Address, Amount, LedgerKind, LedgerOp, Name, Rec, SessionId, Terms, Text};

/// What a gateway was set up with.
///
/// It is stored only with a key of 32 to 64 bytes and a peer that isn't the name itself.
#[derive(Drop)]
pub struct Setup {
    /// The gateway's own name.
    pub name: Name,
    /// The name of the gateway that it exchanges messages with.
    pub peer: Name,
    /// Where the peer is found.
    pub at: Address,
    /// The key that both gateways sign their messages with.
    pub key: Text,
}

/// A record as a journal stores it.
#[derive(Drop)]
pub enum Stored {
    /// The first record of a gateway's journal.
    Setup(Setup),
    /// A record of a session.
    Session {
        session: SessionId,
        rec: Rec,
        /// The signed text of the message for `Began`, `Took` and `Made`, of 1 to 2,048 bytes; empty otherwise.
        text: Text,
    },
    /// The first record of a ledger's journal.
    Kind(LedgerKind),
    /// An asset of the genesis.
    Asset {
        name: Name,
        /// How many units there may be at most: in the range of an amount.
        cap: u64,
    },
    /// A holding of the genesis.
    Hold {
        asset: Name,
        owner: Name,
        amount: Amount,
    },
    /// An operation that changed the entry of a session.
    Act {
        op: LedgerOp,
        session: SessionId,
        terms: Terms,
    },
}
