//! Theorems on headers and parts. They stand over definitions alone and make no call.

ghost use Rattle.satp_jws.specs.Faults.{DecodesWhatIsEncoded, OwnHeaderPasses};

/// The header of each text that is signed here is one that is accepted.
pub fn law_own_header()
    ensures { OwnHeaderPasses }
{}

/// Exactly the unpadded base64url texts decode, to the bytes that they encode.
pub fn law_parts()
    ensures { DecodesWhatIsEncoded }
{}
