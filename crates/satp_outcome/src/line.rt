// The words of an outcome's line.
ghost use Rattle.std.specs.Prelude.{◌≡◌, ◌++◌, codes, decimal};
ghost use Rattle.satp_base.specs.Values.{session_text};
ghost use Rattle.satp_outcome.specs.Lines.{LineRule, words_in};
ghost use Rattle.satp_outcome.specs.Outcomes.{input_words, peer_words, place_words};
ghost use Rattle.satp_phrases.specs.Phrases.{phrase_text, words_of};

use crate::outcome::{InputEnd, Outcome, PeerEnd, PlaceEnd};
use satp_base::SessionId;
use satp_phrases::{Detail, Phrase, canon_phrase, jws_phrase, numbered, plain, refusal_phrase};

/// The words of a line.
#[derive(Clone, Copy, Debug, PartialEq, Eq)]
pub(crate) struct LineWords {
    pub(crate) before: &'static [u8],
    pub(crate) phrase: Phrase,
    pub(crate) after: &'static [u8],
}

/// The line of an outcome; none where the work was done or the session was rolled back.
pub(crate) fn line_words(outcome: Outcome) -> Option<LineWords>
    ensures { LineRule outcome result }
{
    match outcome {
        Outcome::Done => None,
        Outcome::RolledBack => None,
        Outcome::WordsRefused => Some(words(b"words refused")),
        Outcome::Memory => Some(words(b"no memory")),
        Outcome::InputFailed => Some(words(b"input failed")),
        Outcome::OutputFailed => Some(words(b"output failed")),
        Outcome::Input(end) => Some(input_line(end)),
        Outcome::Place(end) => Some(place_line(end)),
        Outcome::Peer(end) => Some(peer_line(end)),
    }
}

fn input_line(end: InputEnd) -> LineWords
    ensures { words_in result ≡ input_words end }
{
    match end {
        InputEnd::Long => words(b"input too long"),
        InputEnd::Text(fault) => phrased(b"input refused: ", canon_phrase(fault)),
        InputEnd::Signature(fault) => phrased(b"input refused: ", jws_phrase(fault)),
        InputEnd::Kind => words(b"input refused: kind"),
        InputEnd::Receiver => words(b"not the receiver"),
        InputEnd::GenesisLine { number } => refused_at(b"genesis line ", number as u64),
        InputEnd::ScheduleLine { number } => refused_at(b"schedule line ", number as u64),
        InputEnd::LogDamaged { at } => at_number(b"log damaged at ", at),
        InputEnd::LogRecord { index } => refused_at(b"record ", index as u64),
        InputEnd::LogEmpty => words(b"log empty"),
    }
}

fn place_line(end: PlaceEnd) -> LineWords
    ensures { words_in result ≡ place_words end }
{
    match end {
        PlaceEnd::Site => words(b"site failed"),
        PlaceEnd::JournalDamaged { at } => at_number(b"journal damaged at ", at),
        PlaceEnd::JournalRecord { index } => refused_at(b"journal record ", index as u64),
        PlaceEnd::GatewayThere => words(b"gateway is there"),
        PlaceEnd::NoGateway => words(b"no gateway here"),
        PlaceEnd::NoSession { session } => about(b"no session ", session, b""),
        PlaceEnd::Exists { session } => about(b"session ", session, b" exists"),
        PlaceEnd::Full { count } => at_number(b"full at ", count as u64),
        PlaceEnd::TooLate { place } => at_number(b"too late at place ", place as u64),
    }
}

fn peer_line(end: PeerEnd) -> LineWords
    ensures { words_in result ≡ peer_words end }
{
    match end {
        PeerEnd::Wire => words(b"wire failed"),
        PeerEnd::Early => words(b"answer ended early"),
        PeerEnd::Status { code } => at_number(b"answer status ", code as u64),
        PeerEnd::NotHttp => words(b"answer not http"),
        PeerEnd::Silent => words(b"answer missing"),
        PeerEnd::Refused(refused) => phrased(b"answer refused: ", refusal_phrase(refused)),
        PeerEnd::Turns => words(b"too many turns"),
    }
}

fn words(text: &'static [u8]) -> LineWords
    ensures { words_in result ≡ text.now }
{
    phrased(text, plain(b""))
}

fn at_number(text: &'static [u8], number: u64) -> LineWords
    ensures { words_in result ≡ text.now ++ decimal number }
{
    phrased(text, numbered(b"", number))
}

fn refused_at(text: &'static [u8], number: u64) -> LineWords
    ensures { words_in result ≡ text.now ++ (decimal number ++ codes " refused") }
{
    LineWords {
        before: text,
        phrase: numbered(b"", number),
        after: b" refused",
    }
}

fn about(before: &'static [u8], session: SessionId, after: &'static [u8]) -> LineWords
    ensures { words_in result ≡ before.now ++ (session_text session ++ after.now) }
{
    LineWords {
        before,
        phrase: Phrase {
            text: b"",
            detail: Detail::Session { session },
        },
        after,
    }
}

fn phrased(text: &'static [u8], phrase: Phrase) -> LineWords
    ensures { words_in result ≡ text.now ++ phrase_text (words_of phrase) }
{
    LineWords {
        before: text,
        phrase,
        after: b"",
    }
}
