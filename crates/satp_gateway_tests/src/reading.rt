//! What the words of a line stand for.

use crate::answer::Digest;
use crate::call::{Call, cut_word, number_of};
use satp_base::{Address, Amount, Genesis, Kind, Name, SessionId, Terms, Text};
use satp_canon::{link_of, read};
use satp_jws::{Key, verify};
use satp_records::Setup;
use std::alloc::Global;

const OWN: &[u8] =
    b"\x00\x01\x02\x03\x04\x05\x06\x07\x08\x09\x0a\x0b\x0c\x0d\x0e\x0f\x10\x11\x12\x13\x14\x15\x16\x17\x18\x19\x1a\x1b\x1c\x1d\x1e\x1f";

/// The key of RFC 7515, appendix A.1.
const RFC: &[u8] =
    b"\x03\x23\x35\x4b\x2b\x0f\xa5\xbc\x83\x7e\x06\x65\x77\x7b\xa6\x8f\x5a\xb3\x28\xe6\xf0\x54\xc9\x28\xa9\x0f\x84\xb2\xd2\x50\x2e\xbf\xd3\xfb\x5a\x92\xd2\x06\x47\xef\x96\x8a\xb4\xc3\x77\x62\x3d\x22\x3d\x2e\x21\x72\x05\x2e\x4f\x08\xc0\xcd\x9a\xf5\x67\xd0\x80\xa3";

pub fn session_of(word: &str) -> Option<SessionId> {
    SessionId::read(word.as_bytes()).ok()
}

pub fn name_of(word: &str) -> Option<Name> {
    Name::read(word.as_bytes()).ok()
}

/// The terms of a start.
pub fn terms_of(call: Call<'_>) -> Option<Terms> {
    let (from, to) = cut_word(call.rest);
    Some(Terms {
        amount: Amount::from(number_of(call.second))?,
        asset: name_of(call.third)?,
        beneficiary: name_of(to)?,
        originator: name_of(from)?,
    })
}

/// What a gateway is set up with. None where it can't be, or no memory was found.
pub fn setup_of(alloc: Global, call: Call<'_>) -> Option<Setup> {
    let key = match call.third {
        "rfc" => RFC,
        _ => OWN,
    };
    Some(Setup {
        name: name_of(call.first)?,
        peer: name_of(call.second)?,
        at: Address::read(b"127.0.0.1:7002").ok()?,
        key: Text::copy(alloc, key).ok()?,
    })
}

/// The genesis whose lines end with semicolons.
pub fn genesis_of(alloc: Global, words: &str) -> Option<Genesis> {
    let mut lines = Vec::new(alloc);
    for byte in words.as_bytes() {
        let kept = if *byte == b';' { b'\n' } else { *byte };
        lines.push(kept).ok()?;
    }
    Genesis::read(alloc, &lines).ok()
}

pub fn digest_of(bytes: &[u8]) -> Digest {
    let link = link_of(bytes);
    let [first, second, third, fourth, ..] = link.0;
    Digest {
        length: bytes.len(),
        link: [first, second, third, fourth],
    }
}

/// The kind of a message that is signed with the own key.
pub fn kind_of(alloc: Global, text: &[u8]) -> Option<Kind> {
    let key = Key::new(OWN).ok()?;
    let payload = verify(alloc, &key, text).ok()?.payload;
    let message = read(alloc, payload.bytes()).ok()?;
    Some(message.body.kind())
}
