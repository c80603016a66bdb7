use satp_base::{Amount, Name, SessionId};

/// A side of a drill.
#[derive(Clone, Copy, Debug, PartialEq, Eq)]
pub enum Side {
    A,
    B,
}

/// A line of a schedule: what one side is to do, or what is to go wrong in the next command.
///
/// Numbers are from 1 to 4,294,967,295, a pick also 0.
#[derive(Clone, Copy, Debug, PartialEq, Eq)]
pub enum Line {
    /// The side starts a transfer and drives it.
    Start {
        side: Side,
        number: u32,
        asset: Name,
        amount: Amount,
        originator: Name,
        beneficiary: Name,
    },
    /// The side goes on with a session.
    Resume {
        side: Side,
        session: SessionId,
    },
    /// The side starts a recovery round.
    Recover {
        side: Side,
        session: SessionId,
    },
    /// The side aborts a session.
    Abort {
        side: Side,
        session: SessionId,
    },
    /// The n-th text that was ever sent is handed to the side once more.
    Deliver {
        side: Side,
        n: u32,
    },
    /// In the next command the side stops after so many events, and leaves that pick of its disk.
    Stop {
        side: Side,
        event: u32,
        pick: u32,
    },
    /// In the next command the call of that number on the side's devices fails.
    Fail {
        side: Side,
        call: u32,
    },
    /// The n-th message of the next command is lost.
    Lose {
        n: u32,
    },
    /// The n-th message of the next command is handed over twice.
    Twice {
        n: u32,
    },
}
