use crate::message::Link;

/// The end of a chain: how long it is, and the links by which its last messages are named.
#[derive(Clone, Copy, Debug, PartialEq, Eq)]
pub struct Head {
    /// How many messages the chain has, from 0 to 11.
    pub length: u8,
    /// The link of the last message, zeros where there is none.
    pub last: Link,
    /// The link of the message before the last, zeros where there is none.
    pub before: Link,
}
