use crate::ledger::LedgerOp;
use crate::message::Terms;
use crate::session::SessionId;
use crate::text::Text;

/// An area of bytes on a gateway's disk.
#[derive(Clone, Copy, Debug, PartialEq, Eq)]
pub enum Area {
    /// The first of the two areas of a gateway's journal.
    JournalA,
    /// The second.
    JournalB,
    /// The journal of the ledger, where the gateway keeps one.
    Ledger,
}

/// What happened to a site: one change of an area or of the ledger.
#[derive(Drop)]
pub enum Event {
    /// Bytes were laid over the area's from a place on.
    Wrote {
        area: Area,
        at: u64,
        bytes: Text,
    },
    /// The area was cut to a length.
    Cut {
        area: Area,
        length: u64,
    },
    /// What the area holds will survive a stop.
    Synced {
        area: Area,
    },
    /// After a failed call the area reads as these bytes.
    Left {
        area: Area,
        bytes: Text,
    },
    /// The ledger was set up anew.
    Founded,
    /// An operation changed the entry of a session.
    Acted {
        op: LedgerOp,
        session: SessionId,
        terms: Terms,
    },
}
