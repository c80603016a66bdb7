use satp_base::{Rec, Role, SessionId, Terms, Text};
use satp_chain::Signed;

/// Which text of a session is the reply, after its due work.
#[derive(Clone, Copy, Debug, PartialEq, Eq)]
pub enum Replying {
    /// None.
    Nothing,
    /// The chain's last text, and none where the chain is whole.
    LastUnlessWhole,
    /// The chain's last text, where it is this side's.
    LastOwn,
    /// What answers the message at this place, which the chain has already.
    Again { place: u8 },
    /// How long the chain is, and its last link.
    Recover,
    /// How long the chain is, and the texts that a chain of the given length lacks.
    Update { given: u8 },
}

/// What a call stores before the due work of its session.
#[derive(Drop)]
pub enum First {
    /// Nothing.
    Nothing,
    /// A record without a message.
    Note { rec: Rec },
    /// That a message of the peer was taken.
    Takes { signed: Signed },
    /// That the session began, with the proposal of these terms.
    Begins { role: Role, terms: Terms },
}

/// What a call comes to if no test refuses it.
#[derive(Drop)]
pub enum Decision {
    /// It replies at once, and stores nothing.
    Gives {
        reply: Option<Text>,
    },
    /// It stores a first record of the session, if there is one, does the due work, and replies.
    Works {
        session: SessionId,
        first: First,
        replying: Replying,
    },
}
