use crate::changes::{Change, Journals};
use crate::journals::put_text;
use satp_base::{Role, Text, Texts};
use satp_replay::{ReplayFault, replay};
use std::alloc::Global;

/// The bytes of a journal.
#[derive(Clone, Copy, Debug, PartialEq, Eq)]
enum Image {
    /// The whole journal of this role.
    Whole(Role),
    /// The first records of alpha's, so many.
    First(usize),
    /// Alpha's without the record at this index.
    Without(usize),
    /// These bytes.
    Bytes(&'static [u8]),
}

const ALPHA: &[u8] = b"gateway alpha peer beta\nalpha.1 origin committed 11\nrecords 15\n";

const BETA: &[u8] = b"gateway beta peer alpha\nalpha.1 recipient committed 11\nrecords 14\n";

const THREE: &[u8] = b"gateway alpha peer beta\nalpha.1 origin open 2\nrecords 3\n";

/// Bytes, and the lines that they give or why they give none.
const ROWS: [(Image, Result<&[u8], ReplayFault>); 7] = [
    (Image::Whole(Role::Origin), Ok(ALPHA)),
    (Image::Whole(Role::Recipient), Ok(BETA)),
    (Image::First(3), Ok(THREE)),
    (Image::Without(3), Err(ReplayFault::Record { index: 3 })),
    (Image::Bytes(b""), Err(ReplayFault::Empty)),
    (Image::Bytes(b"\x00"), Err(ReplayFault::Empty)),
    (
        Image::Bytes(b"\x01\x00"),
        Err(ReplayFault::Damaged { at: 0 }),
    ),
];

/// The bytes of a journal with the first payloads, at most so many, and a closed gate.
fn image_of(alloc: Global, payloads: &Texts, count: usize) -> Option<Text> {
    let mut image = Text::copy(alloc, b"").ok()?;
    for index in 0..count.min(payloads.length()) {
        let payload = payloads.get(index)?;
        if image.append(b"\x01").is_err() || !put_text(&mut image, payload.bytes()) {
            return None;
        }
    }
    if image.append(b"\x00").is_ok() {
        Some(image)
    } else {
        None
    }
}

fn journal_image(
    alloc: Global,
    role: Role,
    change: Change,
    at: usize,
    count: usize,
) -> Option<Text> {
    let journals = Journals::of(alloc, role)?;
    let payloads = journals.changed(alloc, change, at)?;
    image_of(alloc, &payloads, count)
}

fn bytes_of(alloc: Global, image: Image) -> Option<Text> {
    match image {
        Image::Whole(role) => journal_image(alloc, role, Change::Nothing, 0, usize::MAX),
        Image::First(count) => journal_image(alloc, Role::Origin, Change::Nothing, 0, count),
        Image::Without(index) => {
            journal_image(alloc, Role::Origin, Change::Missing, index, usize::MAX)
        }
        Image::Bytes(bytes) => Text::copy(alloc, bytes).ok(),
    }
}

fn is_answered(alloc: Global, bytes: &[u8], wanted: Result<&[u8], ReplayFault>) -> bool {
    match replay(alloc, bytes) {
        Ok(text) => match wanted {
            Ok(lines) => text.bytes() == lines,
            Err(_) => false,
        },
        Err(fault) => match wanted {
            Ok(_) => false,
            Err(other) => fault == other,
        },
    }
}

/// The first bytes that are answered otherwise.
fn first_other(alloc: Global) -> Option<Image> {
    for (given, wanted) in ROWS {
        match bytes_of(alloc, given) {
            Some(bytes) => {
                if !is_answered(alloc, bytes.bytes(), wanted) {
                    return Some(given);
                }
            }
            None => return Some(given),
        }
    }
    None
}

#[test]
fn journals_give_their_lines(rt: HostRuntime) {
    assert_eq!(rt; first_other(rt.alloc()), None);
}
