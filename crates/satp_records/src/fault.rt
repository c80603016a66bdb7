/// Why a payload is no record. Places are counted in bytes from the payload's first, which is 0.
#[derive(Clone, Copy, Debug, PartialEq, Eq)]
pub enum RecordFault {
    /// The payload ends at `at` within a field, or has no byte.
    Short { at: usize },
    /// No kind of record has this first byte.
    Kind { byte: u8 },
    /// The field that begins at `at`, its bytes of length included, is out of its form.
    Value { at: usize },
    /// Bytes stand behind the last field, from `at` on.
    Extra { at: usize },
    /// No memory was found.
    Memory,
}
