// The longest text of a chain, as Python's json, hmac and base64 write it.

use crate::canon_tests::fault;
use satp_base::{Amount, Body, Link, Message, Name, Part, SessionId, Terms, Text};
use satp_canon::write;
use satp_jws::{Key, sign, verify};
use std::alloc::Global;

/// A proposal with six names of 32 bytes, the session's gateway among them, and the greatest numbers.
const LONGEST: &[u8] =
    b"{\"kind\":\"transfer-proposal\",\"previous\":\"AAAAAAAAAAAAAAAAAAAAAAAAAAAAAAAAAAAAAAAAAAA\",\"receiver\":\"gateway-of-the-longest-name-0002\",\"sender\":\"gateway-of-the-longest-name-0001\",\"sequence\":1,\"session\":\"gateway-of-the-longest-name-0001.4294967295\",\"terms\":{\"amount\":9007199254740991,\"asset\":\"asset-with-the-longest-name-0003\",\"beneficiary\":\"owner-who-has-the-longest-name-4\",\"originator\":\"owner-who-has-the-longest-name-5\"},\"version\":1}";

/// The last part of its compact JWS under 32 bytes of the value 7.
const SIGNATURE: &[u8] = b".GmwKcjJfV44YsEtA85Xorj37Sq9EvYXhedvgZlCZkPA";

fn name(text: &[u8]) -> Option<Name> {
    Name::read(text).ok()
}

fn terms() -> Option<Terms> {
    Some(Terms {
        amount: Amount::from(9_007_199_254_740_991)?,
        asset: name(b"asset-with-the-longest-name-0003")?,
        beneficiary: name(b"owner-who-has-the-longest-name-4")?,
        originator: name(b"owner-who-has-the-longest-name-5")?,
    })
}

fn written(alloc: Global) -> Option<Text> {
    let gateway = name(b"gateway-of-the-longest-name-0001")?;
    let receiver = name(b"gateway-of-the-longest-name-0002")?;
    let part = Part::Proposal(terms()?);
    let message = Message {
        session: SessionId {
            gateway,
            number: 4_294_967_295,
        },
        sender: gateway,
        receiver,
        body: Body::Chain {
            place: 1,
            previous: Link([0; 32]),
            part,
        },
    };
    write(alloc, &message).ok()
}

fn is_written(alloc: Global) -> bool {
    match written(alloc) {
        Some(text) => text.bytes() == LONGEST,
        None => false,
    }
}

fn comes_back(alloc: Global, key: &Key, signed: &[u8]) -> bool {
    match verify(alloc, key, signed) {
        Ok(verified) => verified.payload.bytes() == LONGEST,
        Err(_) => false,
    }
}

/// Whether the text is signed under the key in 641 bytes, and comes back.
fn is_signed(alloc: Global, key: &Key) -> bool {
    match sign(alloc, key, LONGEST) {
        Ok(signed) => {
            let bytes = signed.bytes();
            bytes.len() == 641 && bytes.ends_with(SIGNATURE) && comes_back(alloc, key, bytes)
        }
        Err(_) => false,
    }
}

#[test]
fn the_longest_text_is_written_and_signed(rt: HostRuntime) {
    let alloc = rt.alloc();
    let is_signed = match Key::new(&[7; 32]) {
        Ok(key) => is_signed(alloc, &key),
        Err(_) => false,
    };
    let found = (
        LONGEST.len(),
        fault(alloc, LONGEST),
        is_written(alloc),
        is_signed,
    );
    assert_eq!(rt; found, (432, None, true, true));
}
