use crate::message::Link;

/// What a chain says of a chain message of its session.
#[derive(Clone, Copy, Debug, PartialEq, Eq)]
pub enum Verdict {
    /// It is the next one.
    Next,
    /// It stands at this place already; in a whole chain, any text for a place before the last two.
    Again { place: u8 },
    /// Its place is further than the next one.
    Gap { length: u8 },
    /// At its place another text stands, with the link `kept`.
    Other { place: u8, kept: Link },
    /// For the next place, but after another text than the chain's last one, whose link is `kept`.
    WrongPrevious { kept: Link },
    /// The side that makes the messages at its place did not send it.
    WrongSender,
    /// For the next place, but of a kind that cannot come there.
    OffTale { place: u8 },
}
