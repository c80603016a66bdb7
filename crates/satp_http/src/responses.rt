// The answers that a connection brings.
ghost use Rattle.std.specs.Prelude.{◌≡◌, ◌≤◌, ◌<◌, Ok, None, length, IfOk};
ghost use Rattle.satp_http.specs.Feeds.{no_answers, Adds, TakesAnswer};
ghost use Rattle.satp_http.specs.Found.{IsFront};
ghost use Rattle.satp_http.specs.Heads.{room};

use crate::HttpFault;
use crate::answer_head::{AnswerFraming, find_answer, is_interim};
use crate::buffer::Buffer;
use crate::head::Found;
use satp_base::{Memory, Text};
use std::alloc::Global;
use std::marker::Model;

/// An answer that came whole.
#[derive(Drop)]
pub struct Answered {
    /// The status code: any three digits but 100.
    pub code: u16,
    /// The bytes behind the head, as many as its Content-Length says; none for 204.
    pub body: Text,
}

/// Where the first answer begins that is no interim one, how many interim answers stand in a row before
/// it, and what is found there.
#[derive(Clone, Copy)]
struct Front {
    at: usize,
    passed: u8,
    found: Found<AnswerFraming>,
}

/// Looks behind the interim answers.
fn front_of(held: &[u8], passed: u8) -> Front
    ensures { IsFront passed held.now result }
{
    let mut at = 0;
    let mut passed = passed;
    'interim: loop {
        let found = find_answer(&held[at..], passed);
        let Found::Head(start, framing) = found else {
            return Front { at, passed, found };
        };
        if !is_interim(framing.code) {
            return Front { at, passed, found };
        }
        at += start;
        passed += 1;
    }
}

/// The answers of a connection, from bytes that come in any pieces. At most 16,384 bytes are held, and
/// the room for them is reserved when it is made.
#[derive(Drop)]
pub struct Responses {
    buffer: Buffer,
    passed: u8,
    stuck: Option<HttpFault>,
}

impl Model for Responses {
    ghost use Rattle.satp_http.specs.Heads.{server};
    ghost use Rattle.satp_http.specs.Feeds.{AnswerFeed, IsStuck};

    ghost Value = { AnswerFeed };

    ghost view = { λ r. record { held = r.buffer; passed = r.passed; stuck = r.stuck } };

    ghost invariant = { λ r. IsStuck server r.passed r.buffer r.stuck };
}

impl Responses {
    /// Takes the memory for all bytes that will be held.
    pub fn new(alloc: Global) -> Result<Responses, Memory>
        ensures { IfOk result (λ responses. responses ≡ no_answers) }
    {
        Ok(Responses {
            buffer: Buffer::new(alloc)?,
            passed: 0,
            stuck: None,
        })
    }

    /// Adds as much of the piece as there is room for, and says how many bytes that was.
    pub fn feed(&mut self, piece: &[u8]) -> usize
        ensures adds { Adds piece.now self.old.held self.new.held result }
        ensures rest { self.new ≡ record self.old { held = self.new.held } }
        ensures most { length self.new.held ≤ room }
    {
        self.buffer.add(piece)
    }

    /// How many bytes are held.
    pub fn held(&self) -> usize
        ensures held { result ≡ length self.now.held }
        ensures most { result ≤ room }
    {
        self.buffer.bytes().len()
    }

    /// Takes the answer at the front, where it is whole. Answers of code 100 are passed over, at most
    /// sixteen in a row. Where no other answer is whole there is room for more bytes.
    ///
    /// A fault comes as soon as the bytes held show it, and is the first of its head in this order: `Head`,
    /// `ManyHeaders`, `HeadLong`, `Version`, `Interim`, `Chunked`, `Coding`, and for codes other than 100 and
    /// 204 `LengthMissing`, `LengthBad`, `BodyLong`. Where both of the first two hold, either may come;
    /// `HeadLong` comes only where neither does. A fault is answered again by each later call, but for
    /// `Memory`, which changes nothing.
    pub fn take(&mut self, alloc: Global) -> Result<Option<Answered>, HttpFault>
        ensures takes { TakesAnswer self.old self.new result }
        ensures room { result ≡ Ok None → length self.new.held < room }
    {
        if let Some(fault) = self.stuck {
            return Err(fault);
        }
        let front = front_of(self.buffer.bytes(), self.passed);
        match front.found {
            Found::More => {
                self.buffer.drop_front(front.at);
                self.passed = front.passed;
                Ok(None)
            }
            Found::Fault(fault) => {
                self.buffer.drop_front(front.at);
                self.passed = front.passed;
                self.stuck = Some(fault);
                Err(fault)
            }
            Found::Head(start, framing) => {
                let begin = front.at + start;
                let end = begin + framing.length;
                if end > self.buffer.bytes().len() {
                    self.buffer.drop_front(front.at);
                    self.passed = front.passed;
                    return Ok(None);
                }
                let Ok(body) = Text::copy(alloc, &self.buffer.bytes()[begin..end]) else {
                    return Err(HttpFault::Memory);
                };
                self.buffer.drop_front(end);
                self.passed = 0;
                Ok(Some(Answered {
                    code: framing.code,
                    body,
                }))
            }
        }
    }
}
