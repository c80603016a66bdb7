// The words in which a gateway's refusal is told.
ghost use Rattle.std.specs.Prelude.{◌≡◌};
ghost use Rattle.satp_phrases.specs.Phrases.{words_of};
ghost use Rattle.satp_phrases.specs.Refusals.{canon_words, jws_words, recovery_words, refusal_words, verdict_words};

use crate::phrase::{Detail, Phrase, numbered, plain};
use satp_base::Verdict;
use satp_canon::CanonFault;
use satp_jws::JwsFault;
use satp_points::Refused;
use satp_recovery::RecoveryFault;

/// The words in which a refusal is told.
pub fn refusal_phrase(refused: Refused) -> Phrase
    ensures { words_of result ≡ refusal_words refused }
{
    match refused {
        Refused::Broken => plain(b"broken"),
        Refused::Size { length } => numbered(b"size ", length as u64),
        Refused::Jws { fault } => jws_phrase(fault),
        Refused::Header => plain(b"header"),
        Refused::Body { fault } => canon_phrase(fault),
        Refused::Receiver => plain(b"receiver"),
        Refused::Strange { session } => Phrase {
            text: b"strange ",
            detail: Detail::Session { session },
        },
        Refused::Chain { verdict } => verdict_phrase(verdict),
        Refused::Recovery { fault } => recovery_phrase(fault),
        Refused::Full { count } => numbered(b"full ", count as u64),
        Refused::Exists => plain(b"exists"),
        Refused::TooLate { place } => numbered(b"too late at place ", place as u64),
        Refused::Site => plain(b"site"),
        Refused::Memory => plain(b"memory"),
    }
}

/// The words in which a fault of a signed text is told.
pub fn jws_phrase(fault: JwsFault) -> Phrase
    ensures { words_of result ≡ jws_words fault }
{
    match fault {
        JwsFault::Parts { count } => numbered(b"jws parts ", count as u64),
        JwsFault::NotBase64 { part } => numbered(b"jws base64 ", part as u64),
        JwsFault::Header => plain(b"jws header"),
        JwsFault::Algorithm => plain(b"jws algorithm"),
        JwsFault::Critical => plain(b"jws critical"),
        JwsFault::Signature => plain(b"jws signature"),
        JwsFault::Memory => plain(b"memory"),
    }
}

/// The words in which a fault of a message's text is told.
pub fn canon_phrase(fault: CanonFault) -> Phrase
    ensures { words_of result ≡ canon_words fault }
{
    match fault {
        CanonFault::Long { length } => numbered(b"long ", length as u64),
        CanonFault::NotJson => plain(b"json"),
        CanonFault::Member { which } => Phrase {
            text: b"member ",
            detail: Detail::Member { member: which },
        },
        CanonFault::Value { which } => Phrase {
            text: b"value ",
            detail: Detail::Member { member: which },
        },
        CanonFault::NotCanonical { at } => numbered(b"not canonical at ", at as u64),
        CanonFault::Memory => plain(b"memory"),
    }
}

/// The words in which it is told why a chain refuses a message.
fn verdict_phrase(verdict: Verdict) -> Phrase
    ensures { words_of result ≡ verdict_words verdict }
{
    match verdict {
        Verdict::Next => plain(b"next"),
        Verdict::Again { place } => numbered(b"again ", place as u64),
        Verdict::Gap { length } => numbered(b"gap ", length as u64),
        Verdict::Other { place, .. } => numbered(b"other ", place as u64),
        Verdict::WrongPrevious { .. } => plain(b"previous"),
        Verdict::WrongSender => plain(b"sender"),
        Verdict::OffTale { place } => numbered(b"tale ", place as u64),
    }
}

/// The words in which it is told why a recovery message is refused.
fn recovery_phrase(fault: RecoveryFault) -> Phrase
    ensures { words_of result ≡ recovery_words fault }
{
    match fault {
        RecoveryFault::Longer { by } => numbered(b"longer ", by as u64),
        RecoveryFault::Shorter { by } => numbered(b"shorter ", by as u64),
        RecoveryFault::OtherHash { .. } => plain(b"other hash"),
        RecoveryFault::EntryRefused { place } => numbered(b"entry ", place as u64),
    }
}
