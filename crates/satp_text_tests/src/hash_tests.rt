// Published values of SHA-256 (FIPS 180-4) and HMAC-SHA-256 (RFC 4231), each computed once more by Python's hashlib
// and hmac.

use satp_base::Link;
use satp_canon::{link_of, link_read, link_text};
use satp_jws::hmac_sha256;
use std::alloc::Global;

const HASHES: [(&[u8], &str); 3] = [
    (
        b"",
        "e3b0c44298fc1c149afbf4c8996fb92427ae41e4649b934ca495991b7852b855",
    ),
    (
        b"abc",
        "ba7816bf8f01cfea414140de5dae2223b00361a396177a9cb410ff61f20015ad",
    ),
    (
        b"abcdbcdecdefdefgefghfghighijhijkijkljklmklmnlmnomnopnopq",
        "248d6a61d20638b8e5c026930c3e6039a33ce45964ff2167f6ecedd419db06c1",
    ),
];

/// The test cases 1, 2, 3, 4, 6 and 7; case 5 is of a shortened hash.
const HASHES_UNDER_KEYS: [(&[u8], &[u8], &str); 6] = [
    (
        &[0x0b; 20],
        b"Hi There",
        "b0344c61d8db38535ca8afceaf0bf12b881dc200c9833da726e9376c2e32cff7",
    ),
    (
        b"Jefe",
        b"what do ya want for nothing?",
        "5bdcc146bf60754e6a042426089575c75a003f089d2739839dec58b964ec3843",
    ),
    (
        &[0xaa; 20],
        &[0xdd; 50],
        "773ea91e36800e46854db8ebd09181a72959098b3ef8c122d9635514ced565fe",
    ),
    (
        &[
            1, 2, 3, 4, 5, 6, 7, 8, 9, 10, 11, 12, 13, 14, 15, 16, 17, 18, 19, 20, 21, 22, 23, 24,
            25,
        ],
        &[0xcd; 50],
        "82558a389a443c0ea4cc819899f2083a85f0faa3e578f8077a2e3ff46729665b",
    ),
    (
        &[0xaa; 131],
        b"Test Using Larger Than Block-Size Key - Hash Key First",
        "60e431591ee0b67f0d8a26aacbf5b77f8e0bc6213728c5140546040f0ee37f54",
    ),
    (
        &[0xaa; 131],
        b"This is a test using a larger than block-size key and a larger than block-size data. The key needs to be hashed before being used by the HMAC algorithm.",
        "9b09ffa71b942fcb27635fbcd5b0e944bfdc63644f0713938a7f51535c3a35e2",
    ),
];

fn is_hex(alloc: Global, hash: [u8; 32], wanted: &str) -> bool {
    match hex::encode(alloc, hash) {
        Ok(text) => text.as_str() == wanted,
        Err(_) => false,
    }
}

/// The first text, and the first under a key, whose hash is another one.
fn first_others(alloc: Global) -> (Option<usize>, Option<usize>) {
    (
        HASHES
            .iter()
            .position(|(text, wanted)| !is_hex(alloc, link_of(text).0, wanted)),
        HASHES_UNDER_KEYS.iter().position(|(key, message, wanted)| !is_hex(
            alloc,
            hmac_sha256(key, message),
            wanted,
        )),
    )
}

#[test]
fn hashes_are_those_that_are_published(rt: HostRuntime) {
    assert_eq!(rt; first_others(rt.alloc()), (None, None));
}

const LINK: [u8; 43] = *b"ungWv48Bz-pBQUDeXa4iI7ADYaOWF3qctBD_YfIAFa0";

const NO_LINKS: [&[u8]; 6] = [
    b"",
    b"ungWv48Bz-pBQUDeXa4iI7ADYaOWF3qctBD_YfIAFa",
    b"ungWv48Bz-pBQUDeXa4iI7ADYaOWF3qctBD_YfIAFa1",
    b"ungWv48Bz-pBQUDeXa4iI7ADYaOWF3qctBD_YfIAFa0=",
    b"ungWv48Bz+pBQUDeXa4iI7ADYaOWF3qctBD_YfIAFa0",
    b"ungWv48Bz-pBQUDeXa4iI7ADYaOWF3qctBD_YfIAFa0A",
];

#[test]
fn link_texts_are_read_back(rt: HostRuntime) {
    let link = link_of(b"abc");
    let read = (
        link_text(&link),
        link_read(&LINK),
        link_read(&[b'A'; 43]),
        NO_LINKS.iter().position(|text| link_read(text).is_some()),
    );
    let wanted = (LINK, Some(link), Some(Link([0; 32])), None);
    assert!(rt; read == wanted);
}
