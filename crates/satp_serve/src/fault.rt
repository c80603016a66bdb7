// The code and the words in which a fault of a request is answered.
ghost use Rattle.std.specs.Prelude.{◌≡◌, ◌≢◌, IsTrue};
ghost use Rattle.satp_http.specs.Written.{is_answer_code};
ghost use Rattle.satp_serve.specs.Faults.{fault_code, fault_words};
ghost use Rattle.satp_phrases.specs.Phrases.{words_of};

use satp_http::HttpFault;
use satp_phrases::{Phrase, numbered, plain};

/// The code with which a fault of a request is answered. No request has the fault `Interim`.
pub fn fault_code(fault: HttpFault) -> u16
    ensures code { result ≡ fault_code fault }
    ensures answer { IsTrue (is_answer_code result) }
    ensures body { result ≢ 204 }
{
    match fault {
        HttpFault::Head => 400,
        HttpFault::ManyHeaders => 431,
        HttpFault::HeadLong => 431,
        HttpFault::Version => 505,
        HttpFault::Method => 405,
        HttpFault::Target => 404,
        HttpFault::NoHost => 400,
        HttpFault::TwoHosts => 400,
        HttpFault::Chunked => 501,
        HttpFault::Coding => 415,
        HttpFault::Expect => 417,
        HttpFault::LengthMissing => 411,
        HttpFault::LengthBad => 400,
        HttpFault::BodyLong { .. } => 413,
        HttpFault::Interim => 400,
        HttpFault::Memory => 503,
    }
}

/// The words in which a fault of HTTP is told.
pub fn fault_phrase(fault: HttpFault) -> Phrase
    ensures { words_of result ≡ fault_words fault }
{
    match fault {
        HttpFault::Head => plain(b"head"),
        HttpFault::ManyHeaders => plain(b"many headers"),
        HttpFault::HeadLong => plain(b"head long"),
        HttpFault::Version => plain(b"version"),
        HttpFault::Method => plain(b"method"),
        HttpFault::Target => plain(b"target"),
        HttpFault::NoHost => plain(b"no host"),
        HttpFault::TwoHosts => plain(b"two hosts"),
        HttpFault::Chunked => plain(b"chunked"),
        HttpFault::Coding => plain(b"coding"),
        HttpFault::Expect => plain(b"expect"),
        HttpFault::LengthMissing => plain(b"length missing"),
        HttpFault::LengthBad => plain(b"length bad"),
        HttpFault::BodyLong { length } => numbered(b"body long ", length),
        HttpFault::Interim => plain(b"interim"),
        HttpFault::Memory => plain(b"memory"),
    }
}
