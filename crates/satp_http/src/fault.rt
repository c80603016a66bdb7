/// Why bytes are no request, or no answer. Both sides test for the faults in this order, but for
/// `Interim`, which stands behind `Version`. Where two of the first three hold, either may come.
#[derive(Clone, Copy, Debug, PartialEq, Eq)]
pub enum HttpFault {
    /// The bytes are no head of `httparse`'s grammar, whatever follows.
    Head,
    /// More than 64 header lines.
    ManyHeaders,
    /// No head ends within the first 8,192 bytes.
    HeadLong,
    /// A head of HTTP/1.0.
    Version,
    /// Another method than POST.
    Method,
    /// Another target than `/satp`.
    Target,
    /// No Host line.
    NoHost,
    /// More than one Host line.
    TwoHosts,
    /// A Transfer-Encoding line.
    Chunked,
    /// A Content-Encoding line other than `identity`.
    Coding,
    /// An Expect line other than `100-continue`.
    Expect,
    /// No Content-Length line.
    LengthMissing,
    /// A Content-Length that isn't 1 to 19 digits, or two that differ as numbers.
    LengthBad,
    /// A body of more than 8,192 bytes.
    BodyLong { length: u64 },
    /// The seventeenth answer of code 100 in a row.
    Interim,
    /// No memory was found.
    Memory,
}
