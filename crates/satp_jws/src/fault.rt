/// Why bytes are no key.
#[derive(Clone, Copy, Debug, PartialEq, Eq)]
pub enum KeyFault {
    /// Under 32 bytes.
    Short { length: usize },
    /// Over 64 bytes.
    Long { length: usize },
}

/// Why a text is no compact JWS under a key. The first of these in their order is answered.
#[derive(Clone, Copy, Debug, PartialEq, Eq)]
pub enum JwsFault {
    /// There are not three parts between its full stops (RFC 7515, section 7.1).
    Parts { count: usize },
    /// This part, from 1, is no base64url: a character that is none, padding, or trailing bits that are not zero.
    NotBase64 { part: u8 },
    /// The header is no JSON object with a string `alg`.
    Header,
    /// The algorithm is not HS256.
    Algorithm,
    /// The header has a member `crit`, and no extension is understood here (RFC 7515, section 4.1.11).
    Critical,
    /// The signature is not the one under the key (RFC 7515, section 5.2).
    Signature,
    /// No memory was found.
    Memory,
}
