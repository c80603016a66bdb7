ghost use Rattle.std.specs.Prelude.{◌≡◌, IsTrue};
ghost use Rattle.satp_base.specs.Forms.{IsPart, is_plain};

use satp_base::{Amount, Kind, Name, Part, Role, SessionId, Terms, Text, Texts};
use satp_chain::Chain;
use satp_jws::Key;
use std::alloc::Global;

/// A record's payload, written out by hand: its first byte, the bytes after its session, and the kind of its message if it has one.
type Line = (u8, &'static [u8], Option<Kind>);

/// The session alpha.1
const SESSION: &[u8] = b"\x05alpha\x00\x00\x00\x01";

const TERMS: &[u8] = b"\x00\x00\x00\x00\x00\x00\x00\xfa\x04gold\x03bob\x03ann";

/// The set-up of alpha, and that of beta, without their keys of 32 bytes.
const ALPHA: &[u8] = b"\x00\x05alpha\x04beta\x0e127.0.0.1:7002\x20";

const BETA: &[u8] = b"\x00\x04beta\x05alpha\x0e127.0.0.1:7001\x20";

/// What alpha stores of a whole transfer after its set-up. It locks before its lock assertion, and chooses and burns before its final commit.
const AT_ALPHA: [Line; 14] = [
    (1, b"\x00", Some(Kind::TransferProposal)),
    (2, b"\x02", Some(Kind::ProposalReceipt)),
    (3, b"\x03", Some(Kind::TransferCommence)),
    (2, b"\x04", Some(Kind::CommenceAck)),
    (4, b"\x01", None),
    (3, b"\x05", Some(Kind::LockAssert)),
    (2, b"\x06", Some(Kind::LockReceipt)),
    (3, b"\x07", Some(Kind::CommitPrepare)),
    (2, b"\x08", Some(Kind::CommitReady)),
    (5, b"\x01", None),
    (4, b"\x02", None),
    (3, b"\x09", Some(Kind::CommitFinal)),
    (2, b"\x0a", Some(Kind::CommitFinalAck)),
    (3, b"\x0b", Some(Kind::TransferComplete)),
];

/// What beta stores. It mints before it is ready, and assigns before it acknowledges the final commit.
const AT_BETA: [Line; 13] = [
    (1, b"\x01", Some(Kind::TransferProposal)),
    (3, b"\x02", Some(Kind::ProposalReceipt)),
    (2, b"\x03", Some(Kind::TransferCommence)),
    (3, b"\x04", Some(Kind::CommenceAck)),
    (2, b"\x05", Some(Kind::LockAssert)),
    (3, b"\x06", Some(Kind::LockReceipt)),
    (2, b"\x07", Some(Kind::CommitPrepare)),
    (4, b"\x03", None),
    (3, b"\x08", Some(Kind::CommitReady)),
    (2, b"\x09", Some(Kind::CommitFinal)),
    (4, b"\x04", None),
    (3, b"\x0a", Some(Kind::CommitFinalAck)),
    (2, b"\x0b", Some(Kind::TransferComplete)),
];

fn terms() -> Option<Terms> {
    Some(Terms {
        amount: Amount::from(250)?,
        asset: Name::read(b"gold").ok()?,
        beneficiary: Name::read(b"bob").ok()?,
        originator: Name::read(b"ann").ok()?,
    })
}

fn part_of(kind: Kind) -> Option<Part> {
    match kind {
        Kind::TransferProposal => Some(Part::Proposal(terms()?)),
        _ => Some(Part::Plain(kind)),
    }
}

fn is_part(part: &Part) -> bool
    ensures { IsTrue result → IsPart part.now }
{
    match part {
        Part::Plain(kind) => is_plain(*kind),
        _ => true,
    }
}

fn is_plain(kind: Kind) -> bool
    ensures { result ≡ is_plain kind }
{
    !matches!(
        kind,
        Kind::TransferProposal
            | Kind::Reject
            | Kind::Recover
            | Kind::RecoverUpdate
            | Kind::RecoverSuccess
    )
}

/// Adds a text after its length in two bytes.
pub(crate) fn put_text(payload: &mut Text, text: &[u8]) -> bool {
    match u16::try_from(text.len()) {
        Ok(length) => payload.append(&length.to_be_bytes()).is_ok() && payload.append(text).is_ok(),
        Err(_) => false,
    }
}

/// Adds the text of the chain's next message, with this part, to a payload and to the chain.
fn put_message(
    alloc: Global,
    key: &Key,
    chain: &mut Chain,
    payload: &mut Text,
    part: Part,
) -> bool {
    if !is_part(&part) || !chain.tale().extends(part.kind()) {
        return false;
    }
    match chain.compose(alloc, key, part) {
        Ok(signed) => {
            let is_put = put_text(payload, signed.text.bytes());
            chain.push(signed);
            is_put
        }
        Err(_) => false,
    }
}

/// Adds what comes after a payload's first byte.
fn put_line(alloc: Global, key: &Key, chain: &mut Chain, payload: &mut Text, line: &Line) -> bool {
    let (_, fields, kind) = *line;
    if payload.append(SESSION).is_err() || payload.append(fields).is_err() {
        return false;
    }
    let Some(kind) = kind else {
        return true;
    };
    if kind == Kind::TransferProposal && payload.append(TERMS).is_err() {
        return false;
    }
    match part_of(kind) {
        Some(part) => put_message(alloc, key, chain, payload, part),
        None => false,
    }
}

fn record(alloc: Global, key: &Key, chain: &mut Chain, line: &Line) -> Option<Text> {
    let mut payload = Text::copy(alloc, &[line.0]).ok()?;
    if put_line(alloc, key, chain, &mut payload, line) {
        Some(payload)
    } else {
        None
    }
}

fn add_record(
    alloc: Global,
    key: &Key,
    chain: &mut Chain,
    payloads: &mut Texts,
    line: &Line,
) -> bool {
    match record(alloc, key, chain, line) {
        Some(payload) => payloads.push(payload).is_ok(),
        None => false,
    }
}

fn add_records(
    alloc: Global,
    key: &Key,
    chain: &mut Chain,
    payloads: &mut Texts,
    lines: &[Line],
) -> bool {
    for line in lines {
        if !add_record(alloc, key, chain, payloads, line) {
            return false;
        }
    }
    true
}

fn add_setup(alloc: Global, key: &[u8; 32], payloads: &mut Texts, setup: &[u8]) -> bool {
    match Text::copy(alloc, setup) {
        Ok(mut payload) => payload.append(key).is_ok() && payloads.push(payload).is_ok(),
        Err(_) => false,
    }
}

fn new_chain(alloc: Global) -> Option<Chain> {
    let session = SessionId::read(b"alpha.1").ok()?;
    let recipient = Name::read(b"beta").ok()?;
    Chain::new(alloc, session, recipient).ok()
}

fn add_all(alloc: Global, key: &[u8; 32], payloads: &mut Texts, role: Role) -> bool {
    let (setup, lines): (&[u8], &[Line]) = match role {
        Role::Origin => (ALPHA, &AT_ALPHA),
        Role::Recipient => (BETA, &AT_BETA),
    };
    match (Key::new(key), new_chain(alloc)) {
        (Ok(signing), Some(mut chain)) => {
            add_setup(alloc, key, payloads, setup)
                && add_records(alloc, &signing, &mut chain, payloads, lines)
        }
        _ => false,
    }
}

/// The journal of a whole transfer at the gateway of this role, with texts under the key of its set-up.
pub fn journal(alloc: Global, key: &[u8; 32], role: Role) -> Option<Texts> {
    let mut payloads = Texts::new(alloc);
    if add_all(alloc, key, &mut payloads, role) {
        Some(payloads)
    } else {
        None
    }
}
