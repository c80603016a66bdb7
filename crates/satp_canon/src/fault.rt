use satp_base::MemberName;

/// Why bytes are no canonical text of a message. The variants stand in the order in which they are tested; want of
/// memory may come at any point.
#[derive(Clone, Copy, Debug, PartialEq, Eq)]
pub enum CanonFault {
    /// More than 8,192 bytes.
    Long { length: usize },
    /// No JSON value (RFC 8259), or bytes that aren't UTF-8.
    NotJson,
    /// A member that is missing, or one too many: the first in byte order. `Kind` too where the value is no object.
    Member { which: MemberName },
    /// The first member in byte order whose value has another type or form than its name wants.
    Value { which: MemberName },
    /// The first byte at which the text of the message that was read differs.
    NotCanonical { at: usize },
    Memory,
}
